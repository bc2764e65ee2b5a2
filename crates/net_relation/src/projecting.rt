//! What parts leave of some levels, once all others are hidden.

ghost use Rattle.std.specs.Prelude.{◌≡◌, ◌<◌, ℕ, length, All, IfOk, IfErr, Err};
ghost use Rattle.node_table.specs.Table.{Grows};
ghost use Rattle.part_relation.specs.Plans.{all_hold, AreValid};
ghost use Rattle.det_core.specs.Faults.{IsLimit};
ghost use Rattle.net_relation.specs.Projections.{Projects};

use bdd_ops::LevelSet;
use det_core::SolveFault;
use node_table::{Ref, Space};
use part_relation::{Parts, image, schedule};

/// The bits at these levels that some bits at all others complete to where all parts hold. Each other level is hidden as soon
/// as no part to come depends on it.
pub(crate) fn project(space: &mut Space, parts: &Parts, keep: &LevelSet) -> Result<Ref, SolveFault>
    requires parts { AreValid space.old parts.now }
    requires keep { All (λ level. level < space.old.levels) keep.now }
    ensures ok { IfOk result (λ r. Projects space.new r keep.now (all_hold space.old parts.now)) }
    ensures grows { Grows space.old space.new }
    ensures levels { space.new.levels ≡ space.old.levels }
    ensures limit { IfErr result (IsLimit space.new (λ states. states ≡ 0)) }
{
    let plan = schedule(space.allocator(), space, parts, keep)?;
    let all = space.one();
    match image(space, parts, &plan, all) {
        Ok(r) => Ok(r),
        Err(fault) => Err(SolveFault::stopped(space, fault, 0)),
    }
}
