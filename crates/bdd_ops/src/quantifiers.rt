//! The operations that hide levels: existential quantification, and the relational product (Burch, Clarke, Long 1991),
//! which goes down its two diagrams side by side and never builds their conjunction.

ghost use Rattle.std.specs.Prelude.{◌≡◌, ◌<◌, ◌≤◌, ◌&&◌, ℕ, List, length, Err, IfOk, IfSome, IfNone};
ghost use Rattle.node_table.specs.Table.{value_at, IsValid, Grows};
ghost use Rattle.bdd_ops.specs.Meaning.{StandsForHidden, IsShort};
ghost use Rattle.bdd_ops.specs.Recursion.{AreValid, low_of, ite_value, HidesBelow, IsRight, IsIte, IsHidden};

use crate::choice::Choice;
use crate::connectives::ite_below;
use crate::level_set::LevelSet;
use crate::memo::Memo;
use crate::steps::{cofactors, known, low};
use node_table::{MkFault, Ref, Space};

/// The diagram that is 1 where some bits at these levels make `f` 1: existential quantification. Takes about one step
/// for each node of `f`, and at each hidden level the disjunction of two answers.
pub fn exists(space: &mut Space, f: Ref, levels: &LevelSet) -> Result<Ref, MkFault>
    requires { IsValid space.old f }
    ensures ok { IfOk result (λ r. StandsForHidden space.new r levels.now (λ bits. value_at space.old f bits)) }
    ensures grows { Grows space.old space.new }
    ensures levels { space.new.levels ≡ space.old.levels }
    ensures full { result ≡ Err MkFault.Full → length space.new.nodes ≡ space.new.limit }
    ensures needed { result ≡ Err MkFault.Full → IsShort space.new levels.now (λ bits. value_at space.old f bits) }
{
    let one = space.one();
    and_exists(space, f, one, levels)
}

/// The diagram that is 1 where some bits at these levels make both `f` and `g` 1: the relational product. Takes about
/// one step for each pair of their nodes, and at each hidden level the disjunction of two answers. `Full` can come of a
/// disjunction on the way, whose nodes the answer would not have.
pub fn and_exists(space: &mut Space, f: Ref, g: Ref, levels: &LevelSet) -> Result<Ref, MkFault>
    requires f { IsValid space.old f }
    requires g { IsValid space.old g }
    ensures ok { IfOk result (λ r. StandsForHidden space.new r levels.now (λ bits. value_at space.old f bits && value_at space.old g bits)) }
    ensures grows { Grows space.old space.new }
    ensures levels { space.new.levels ≡ space.old.levels }
    ensures full { result ≡ Err MkFault.Full → length space.new.nodes ≡ space.new.limit }
    ensures needed { result ≡ Err MkFault.Full → IsShort space.new levels.now (λ bits. value_at space.old f bits && value_at space.old g bits) }
{
    let zero = space.zero();
    let mut ites = Memo::new(space.allocator());
    let mut hidden = Memo::new(space.allocator());
    let c = Choice { f, g, h: zero };
    hide_below(space, &mut ites, &mut hidden, &c, levels)
}

// The answer where it is a constant, so that nothing in it is to be hidden.
fn known_constant(space: &Space, c: &Choice) -> Option<Ref>
    requires { AreValid space.now c.now }
    ensures some { IfSome result (λ r. (levels : List ℕ) → IsHidden levels space.now c.now r) }
    ensures none { IfNone result (low_of space.now c.now < space.now.levels) }
{
    match known(space, c) {
        Some(r) => match space.level(r) {
            Some(_) => None,
            None => Some(r),
        },
        None => None,
    }
}

// `ite` with these levels hidden, with the answers so far.
#[cycle(hiding)]
fn hide_below(
    space: &mut Space,
    ites: &mut Memo,
    hidden: &mut Memo,
    c: &Choice,
    levels: &LevelSet,
) -> Result<Ref, MkFault>
    requires choice { AreValid space.old c.now }
    requires ites { IsRight IsIte space.old ites.old }
    requires hidden { IsRight (IsHidden levels.now) space.old hidden.old }
    ensures ok { IfOk result (λ r. HidesBelow space.new (low_of space.old c.now) r levels.now (ite_value space.old c.now)) }
    ensures grows { Grows space.old space.new }
    ensures levels { space.new.levels ≡ space.old.levels }
    ensures full { result ≡ Err MkFault.Full → length space.new.nodes ≡ space.new.limit }
    ensures needed { result ≡ Err MkFault.Full → IsShort space.new levels.now (ite_value space.old c.now) }
    ensures ites { IsRight IsIte space.new ites.new }
    ensures hidden { IsRight (IsHidden levels.now) space.new hidden.new }
{
    if let Some(r) = known_constant(space, c) {
        return Ok(r);
    }
    let level = low(space, c);
    if !levels.reaches(level) {
        return ite_below(space, ites, c);
    }
    if let Some(r) = hidden.recall(c) {
        return Ok(r);
    }
    let r = hide_at(space, ites, hidden, level, c, levels)?;
    hidden.note(c, r)?;
    Ok(r)
}

// The same, by the answers where the bit at the topmost level is 0, and where it is 1. Where the level is hidden and
// the first is 1, so is the answer.
#[cycle(hiding)]
fn hide_at(
    space: &mut Space,
    ites: &mut Memo,
    hidden: &mut Memo,
    level: u32,
    c: &Choice,
    levels: &LevelSet,
) -> Result<Ref, MkFault>
    requires choice { AreValid space.old c.now }
    requires topmost { level ≡ low_of space.old c.now }
    requires exists { level < space.old.levels }
    requires ites { IsRight IsIte space.old ites.old }
    requires hidden { IsRight (IsHidden levels.now) space.old hidden.old }
    ensures ok { IfOk result (λ r. HidesBelow space.new (low_of space.old c.now) r levels.now (ite_value space.old c.now)) }
    ensures grows { Grows space.old space.new }
    ensures levels { space.new.levels ≡ space.old.levels }
    ensures full { result ≡ Err MkFault.Full → length space.new.nodes ≡ space.new.limit }
    ensures needed { result ≡ Err MkFault.Full → IsShort space.new levels.now (ite_value space.old c.now) }
    ensures ites { IsRight IsIte space.new ites.new }
    ensures hidden { IsRight (IsHidden levels.now) space.new hidden.new }
{
    let c0 = cofactors(space, level, c, false);
    let c1 = cofactors(space, level, c, true);
    let lo = hide_below(space, ites, hidden, &c0, levels)?;
    if levels.contains(level) {
        let one = space.one();
        if lo == one {
            return Ok(lo);
        }
        let hi = hide_below(space, ites, hidden, &c1, levels)?;
        let either = Choice {
            f: lo,
            g: one,
            h: hi,
        };
        ite_below(space, ites, &either)
    } else {
        let hi = hide_below(space, ites, hidden, &c1, levels)?;
        space.mk(level, lo, hi)
    }
}
