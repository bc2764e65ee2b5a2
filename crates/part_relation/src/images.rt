//! Images under a relation that is told by parts.

ghost use Rattle.std.specs.Prelude.{◌≡◌, ◌<◌, ◌&&◌, [], length, slice_index, slice_index_or, Err, IfOk};
ghost use Rattle.node_table.specs.Table.{value_at, IsValid, Grows};
ghost use Rattle.bdd_ops.specs.Meaning.{StandsFor, StandsForHidden, IsMissing, IsShort};
ghost use Rattle.part_relation.specs.Plans.{all_hold, AreValid, Fits, named_by, part_at, IsImageShort};

use crate::parts::Parts;
use crate::schedules::Schedule;
use bdd_ops::{LevelSet, and, and_exists, exists};
use node_table::{MkFault, Ref, Space};

/// What is left of the conjunction of `from` and all parts once the levels that the plan names are hidden. The plan hides
/// each as early as it can be.
pub fn image(space: &mut Space, parts: &Parts, plan: &Schedule, from: Ref) -> Result<Ref, MkFault>
    requires parts { AreValid space.old parts.now }
    requires plan { Fits space.old parts.now plan.now }
    requires from { IsValid space.old from }
    ensures ok { IfOk result (λ r. StandsForHidden space.new r (named_by plan.now) (λ bits. value_at space.old from bits && all_hold space.old parts.now bits)) }
    ensures grows { Grows space.old space.new }
    ensures levels { space.new.levels ≡ space.old.levels }
    ensures full { result ≡ Err MkFault.Full → length space.new.nodes ≡ space.new.limit }
    ensures needed { result ≡ Err MkFault.Full → IsImageShort space.old space.new parts.now plan.now from }
{
    let mut left = exists(space, from, plan.first())?;
    for place in 0..plan.len() {
        left = take(space, parts, plan, place, left)?;
    }
    Ok(left)
}

// Conjoins the part in this place, and hides the levels that are hidden there.
fn take(
    space: &mut Space,
    parts: &Parts,
    plan: &Schedule,
    place: u32,
    left: Ref,
) -> Result<Ref, MkFault>
    requires place { place < length plan.now.order }
    requires part { slice_index plan.now.order place < length parts.now }
    requires parts { AreValid space.old parts.now }
    requires left { IsValid space.old left }
    ensures ok { IfOk result (λ r. StandsForHidden space.new r (slice_index_or plan.now.hides place []) (λ bits. value_at space.old left bits && value_at space.old (part_at parts.now plan.now place) bits)) }
    ensures grows { Grows space.old space.new }
    ensures levels { space.new.levels ≡ space.old.levels }
    ensures full { result ≡ Err MkFault.Full → length space.new.nodes ≡ space.new.limit }
    ensures needed { result ≡ Err MkFault.Full → IsShort space.new (slice_index_or plan.now.hides place []) (λ bits. value_at space.old left bits && value_at space.old (part_at parts.now plan.now place) bits) }
{
    match parts.at(plan.part(place)) {
        Some(part) => and_exists(space, left, part, plan.hides(place)),
        None => unreachable!(),
    }
}

/// The bits of `f` that are codes of values, where `valid` tells these.
pub fn lift(space: &mut Space, f: Ref, valid: Ref) -> Result<Ref, MkFault>
    requires f { IsValid space.old f }
    requires valid { IsValid space.old valid }
    ensures ok { IfOk result (λ r. StandsFor space.new r (λ bits. value_at space.old f bits && value_at space.old valid bits)) }
    ensures grows { Grows space.old space.new }
    ensures levels { space.new.levels ≡ space.old.levels }
    ensures full { result ≡ Err MkFault.Full → length space.new.nodes ≡ space.new.limit }
    ensures needed { result ≡ Err MkFault.Full → IsMissing space.new (λ bits. value_at space.old f bits && value_at space.old valid bits) }
{
    and(space, f, valid)
}

/// What is left of `f` once these levels are hidden.
pub fn hide(space: &mut Space, f: Ref, levels: &LevelSet) -> Result<Ref, MkFault>
    requires { IsValid space.old f }
    ensures ok { IfOk result (λ r. StandsForHidden space.new r levels.now (λ bits. value_at space.old f bits)) }
    ensures grows { Grows space.old space.new }
    ensures levels { space.new.levels ≡ space.old.levels }
    ensures full { result ≡ Err MkFault.Full → length space.new.nodes ≡ space.new.limit }
    ensures needed { result ≡ Err MkFault.Full → IsShort space.new levels.now (λ bits. value_at space.old f bits) }
{
    exists(space, f, levels)
}
