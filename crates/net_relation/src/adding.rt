//! Parts that are added to a relation, one after another.

ghost use Rattle.std.specs.Prelude.{◌≡◌, ◌∷◌, ◌++◌, [], ℕ, Bool, List, Ok, Err, length, map, All, IfOk, IfErr, OnOk};
ghost use Rattle.node_table.specs.Table.{Bits, IsValid, Grows};
ghost use Rattle.bdd_ops.specs.Meaning.{StandsFor};
ghost use Rattle.mv_encoding.specs.Spots.{AreSpots, AreLaid, variables_at};
ghost use Rattle.net_model.specs.Nets.{table_of};
ghost use Rattle.table_parts.specs.TableParts.{IsTableOver, part_value};
ghost use Rattle.det_core.specs.Faults.{IsLimit};
ghost use Rattle.net_relation.specs.Relations.{AreFor};

use det_core::SolveFault;
use mv_encoding::Coding;
use net_model::Table;
use node_table::{MkFault, Ref, Space};
use part_relation::Parts;
use table_parts::table_part;

/// Adds a part that was made, or says why it was not.
pub(crate) fn add(
    space: &Space,
    parts: &mut Parts,
    part: Result<Ref, MkFault>,
) -> Result<(), SolveFault>
    requires valid { IfOk part (IsValid space.now) }
    requires full { part ≡ Err MkFault.Full → length space.now.nodes ≡ space.now.limit }
    ensures ok { OnOk result ((r : ℕ) × (part ≡ Ok r) × (parts.new ≡ parts.old ++ r ∷ [])) }
    ensures limit { IfErr result (IsLimit space.now (λ states. states ≡ 0)) }
{
    match part {
        Ok(r) => {
            if parts.len() == u32::MAX {
                return Err(SolveFault::Memory);
            }
            parts.add(space, r)?;
            Ok(())
        }
        Err(fault) => Err(SolveFault::stopped(space, fault, 0)),
    }
}

/// Adds the part of a table.
pub(crate) fn add_table(
    space: &mut Space,
    parts: &mut Parts,
    signals: &[Coding],
    table: &Table,
) -> Result<(), SolveFault>
    requires signals { AreSpots signals.now }
    requires laid { AreLaid space.old signals.now }
    requires table { IsTableOver (variables_at signals.now) (table_of table.now) }
    ensures ok { OnOk result ((before : List (Bits → Bool)) → AreFor space.old parts.old before → AreFor space.new parts.new (before ++ part_value signals.now (table_of table.now) ∷ [])) }
    ensures grows { Grows space.old space.new }
    ensures levels { space.new.levels ≡ space.old.levels }
    ensures limit { IfErr result (IsLimit space.new (λ states. states ≡ 0)) }
{
    let part = table_part(space, signals, table);
    add(space, parts, part)
}

/// Adds the parts of tables, in their order.
pub(crate) fn add_tables(
    space: &mut Space,
    parts: &mut Parts,
    signals: &[Coding],
    tables: &[Table],
) -> Result<(), SolveFault>
    requires signals { AreSpots signals.now }
    requires laid { AreLaid space.old signals.now }
    requires tables { All (IsTableOver (variables_at signals.now)) (map table_of tables.now) }
    ensures ok { OnOk result ((before : List (Bits → Bool)) → AreFor space.old parts.old before → AreFor space.new parts.new (before ++ map (part_value signals.now) (map table_of tables.now))) }
    ensures grows { Grows space.old space.new }
    ensures levels { space.new.levels ≡ space.old.levels }
    ensures limit { IfErr result (IsLimit space.new (λ states. states ≡ 0)) }
{
    let _levels = space.levels();
    for table in tables {
        add_table(space, parts, signals, table)?;
    }
    Ok(())
}
