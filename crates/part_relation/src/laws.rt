//! What holds of every plan, as a function that does nothing. The law is of tables as values, so a caller can use it for a
//! space as it was before some calls and as it is after them.

ghost use Rattle.std.specs.Prelude.{ℕ, List};
ghost use Rattle.node_table.specs.Table.{Table, Grows};
ghost use Rattle.part_relation.specs.Plans.{Plan, AreValid, Fits};

/// Valid parts are valid once the space has grown, and a plan that fits them fits them still. Levels that are put below later
/// are kept.
pub fn plans_fit_when_spaces_grow()
    ensures parts { (before after : Table) (parts : List ℕ) → Grows before after → AreValid before parts → AreValid after parts }
    ensures plans { (before after : Table) (parts : List ℕ) (plan : Plan) → Grows before after → AreValid before parts → Fits before parts plan → Fits after parts plan }
{}
