//! The step down that all operations share: at the topmost level of the diagrams each of them is parted into what is
//! left of it where the bit there is 0, and where it is 1.

ghost use Rattle.std.specs.Prelude.{◌≡◌, ◌<◌, ◌≤◌, IfSome, IfNone};
ghost use Rattle.node_table.specs.Table.{top_of, IsValid};
ghost use Rattle.bdd_ops.specs.Recursion.{AreValid, low_of, ite_value, StandsBelow, IsCofactor, AreCofactors};

use crate::choice::Choice;
use node_table::{Ref, Space};

// The level of a ref; that of a constant is the number of levels.
fn top(space: &Space, r: Ref) -> u32
    requires { IsValid space.now r }
    ensures { result ≡ top_of space.now r }
{
    match space.level(r) {
        Some(level) => level,
        None => space.levels(),
    }
}

// What is left of `f` once the bit at a level that stands no lower than `f` is fixed.
fn cofactor(space: &Space, level: u32, f: Ref, bit: bool) -> Ref
    requires valid { IsValid space.now f }
    requires above { level ≤ top_of space.now f }
    requires exists { level < space.now.levels }
    ensures { IsCofactor space.now level f bit result }
{
    match space.level(f) {
        Some(own) => {
            if own == level {
                if bit { space.hi(f) } else { space.lo(f) }
            } else {
                f
            }
        }
        None => f,
    }
}

/// The topmost level of the three.
pub(crate) fn low(space: &Space, c: &Choice) -> u32
    requires { AreValid space.now c.now }
    ensures { result ≡ low_of space.now c.now }
{
    let f = top(space, c.f);
    let g = top(space, c.g);
    let h = top(space, c.h);
    f.min(g.min(h))
}

/// What is left of the three once the bit at their topmost level is fixed.
pub(crate) fn cofactors(space: &Space, level: u32, c: &Choice, bit: bool) -> Choice
    requires valid { AreValid space.now c.now }
    requires topmost { level ≡ low_of space.now c.now }
    requires exists { level < space.now.levels }
    ensures { AreCofactors space.now level bit c.now result }
{
    let f = cofactor(space, level, c.f, bit);
    let g = cofactor(space, level, c.g, bit);
    let h = cofactor(space, level, c.h, bit);
    Choice { f, g, h }
}

/// The answer of `ite` where it is one of the three.
pub(crate) fn known(space: &Space, c: &Choice) -> Option<Ref>
    requires { AreValid space.now c.now }
    ensures some { IfSome result (λ r. StandsBelow space.now (low_of space.now c.now) r (ite_value space.now c.now)) }
    ensures none { IfNone result (low_of space.now c.now < space.now.levels) }
{
    let one = space.one();
    let zero = space.zero();
    match space.level(c.f) {
        None => { if c.f == one { Some(c.g) } else { Some(c.h) } }
        Some(_) => {
            if c.g == c.h {
                Some(c.g)
            } else {
                if c.g == one {
                    if c.h == zero { Some(c.f) } else { None }
                } else {
                    None
                }
            }
        }
    }
}
