//! Two diagrams that a walk goes down side by side.

ghost use Rattle.std.specs.Prelude.{◌≡◌, ◌<◌, ◌≤◌};
ghost use Rattle.node_table.specs.Table.{top_of, IsValid};
ghost use Rattle.bdd_ops.specs.Recursion.{IsCofactor};
ghost use Rattle.bdd_walk.specs.Splitting.{AreBothValid, low_of};

use node_table::{Ref, Space};

/// A diagram, and the bits at which it is walked.
#[derive(Clone, Copy, PartialEq, Eq, Hash)]
pub(crate) struct Pair {
    pub f: Ref,
    pub within: Ref,
}

// The level of a ref; that of a constant is the number of levels.
fn top(space: &Space, r: Ref) -> u32
    requires { IsValid space.now r }
    ensures { result ≡ top_of space.now r }
{
    match space.level(r) {
        Some(level) => level,
        None => space.levels(),
    }
}

// What is left of `f` once the bit at a level that stands no lower than `f` is fixed.
fn cofactor(space: &Space, level: u32, f: Ref, bit: bool) -> Ref
    requires valid { IsValid space.now f }
    requires above { level ≤ top_of space.now f }
    requires exists { level < space.now.levels }
    ensures { IsCofactor space.now level f bit result }
{
    match space.level(f) {
        Some(own) => {
            if own == level {
                if bit { space.hi(f) } else { space.lo(f) }
            } else {
                f
            }
        }
        None => f,
    }
}

/// The topmost level of the two.
pub(crate) fn low(space: &Space, pair: &Pair) -> u32
    requires { AreBothValid space.now pair.now }
    ensures { result ≡ low_of space.now pair.now }
{
    let f = top(space, pair.f);
    let within = top(space, pair.within);
    f.min(within)
}

/// What is left of both once the bit at their topmost level is fixed.
pub(crate) fn cofactors(space: &Space, level: u32, pair: &Pair, bit: bool) -> Pair
    requires valid { AreBothValid space.now pair.now }
    requires topmost { level ≡ low_of space.now pair.now }
    requires exists { level < space.now.levels }
    ensures f { IsCofactor space.now level pair.now.f bit result.f }
    ensures within { IsCofactor space.now level pair.now.within bit result.within }
{
    let f = cofactor(space, level, pair.f, bit);
    let within = cofactor(space, level, pair.within, bit);
    Pair { f, within }
}
