//! The least bits at which a diagram has the value 1.

ghost use Rattle.std.specs.Prelude.{◌≡◌, ◌≤◌, ◌↔◌, length, IsNone, IfSome};
ghost use Rattle.node_table.specs.Table.{IsValid};
ghost use Rattle.bdd_ops.specs.Meaning.{DependsOn};
ghost use Rattle.bdd_walk.specs.Least.{IsLeast};

use bdd_ops::{CODE_BITS, Code, LevelSet};
use node_table::{Ref, Space};

/// The least bits at these levels at which `f` has the value 1, where it has it at all. Bit k of the code belongs to the
/// level at place k.
pub fn least(space: &Space, f: Ref, levels: &LevelSet) -> Option<Code>
    requires valid { IsValid space.now f }
    requires levels { DependsOn space.now levels.now f }
    requires few { length levels.now ≤ CODE_BITS }
    ensures none { IsNone result ↔ (f ≡ 0) }
    ensures least { IfSome result (IsLeast space.now f levels.now) }
{
    let zero = space.zero();
    if f == zero {
        return None;
    }
    let mut code = Code::zero();
    let mut below = f;
    for place in 0..levels.len() {
        if space.level(below) == levels.at(place) {
            let lo = space.lo(below);
            if lo == zero {
                code.set(place, true);
                below = space.hi(below);
            } else {
                below = lo;
            }
        }
    }
    Some(code)
}
