//! The images of sets of states.

ghost use Rattle.std.specs.Prelude.{◌≡◌, length, Err, IfOk};
ghost use Rattle.node_table.specs.Table.{value_at, IsValid, Grows};
ghost use Rattle.part_relation.specs.Plans.{AreValid};
ghost use Rattle.subset_build.specs.Relations.{Relation, present_of, Reads};
ghost use Rattle.subset_build.specs.Subsets.{IsImage, HaveCommon};
ghost use Rattle.subset_build.specs.Preparing.{IsStepOf};

use crate::prepared::Prepared;
use bdd_ops::{and, rename};
use node_table::{MkFault, Ref, Space};
use part_relation::{Parts, image};

/// The letters and the states to which steps lead from a set of states, the states on the levels of a present one.
pub(crate) fn step(
    space: &mut Space,
    parts: &Parts,
    prepared: &Prepared,
    set: Ref,
) -> Result<Ref, MkFault>
    requires { (rel : Relation) × IsStepOf space.old parts.now prepared.now rel × Reads space.old (present_of rel.state) set }
    ensures valid { IfOk result (IsValid space.new) }
    ensures image { IfOk result (λ f. (rel : Relation) → IsStepOf space.old parts.now prepared.now rel → Reads space.old (present_of rel.state) set → IsImage space.new rel (value_at space.old set) f) }
    ensures grows { Grows space.old space.new }
    ensures levels { space.new.levels ≡ space.old.levels }
    ensures full { result ≡ Err MkFault.Full → length space.new.nodes ≡ space.new.limit }
{
    let image = image(space, parts, &prepared.plan, set)?;
    rename(space, image, &prepared.map)
}

/// Whether two sets have some bits in common.
pub(crate) fn meets(space: &mut Space, f: Ref, g: Ref) -> Result<bool, MkFault>
    requires f { IsValid space.old f }
    requires g { IsValid space.old g }
    ensures ok { IfOk result (HaveCommon space.old f g) }
    ensures grows { Grows space.old space.new }
    ensures levels { space.new.levels ≡ space.old.levels }
    ensures full { result ≡ Err MkFault.Full → length space.new.nodes ≡ space.new.limit }
{
    let both = and(space, f, g)?;
    Ok(both != Ref::ZERO)
}
