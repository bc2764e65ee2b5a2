//! The operations that hide nothing. Each is `ite` at some constants, and goes down its three diagrams side by side.

ghost use Rattle.std.specs.Prelude.{◌≡◌, ◌≤◌, ◌&&◌, ◌||◌, not, if◌then◌else◌, length, Err, IfOk};
ghost use Rattle.node_table.specs.Table.{value_at, IsValid, Grows};
ghost use Rattle.bdd_ops.specs.Meaning.{StandsFor, IsMissing};
ghost use Rattle.bdd_ops.specs.Recursion.{AreValid, low_of, ite_value, StandsBelow, IsRight, IsIte};

use crate::choice::Choice;
use crate::memo::Memo;
use crate::steps::{cofactors, known, low};
use node_table::{MkFault, Ref, Space};

/// The diagram that is 1 where both `f` and `g` are. Takes about one step for each pair of their nodes.
pub fn and(space: &mut Space, f: Ref, g: Ref) -> Result<Ref, MkFault>
    requires f { IsValid space.old f }
    requires g { IsValid space.old g }
    ensures ok { IfOk result (λ r. StandsFor space.new r (λ bits. value_at space.old f bits && value_at space.old g bits)) }
    ensures grows { Grows space.old space.new }
    ensures levels { space.new.levels ≡ space.old.levels }
    ensures full { result ≡ Err MkFault.Full → length space.new.nodes ≡ space.new.limit }
    ensures needed { result ≡ Err MkFault.Full → IsMissing space.new (λ bits. value_at space.old f bits && value_at space.old g bits) }
{
    let zero = space.zero();
    ite(space, f, g, zero)
}

/// The diagram that is 1 where `f` or `g` is. Takes about one step for each pair of their nodes.
pub fn or(space: &mut Space, f: Ref, g: Ref) -> Result<Ref, MkFault>
    requires f { IsValid space.old f }
    requires g { IsValid space.old g }
    ensures ok { IfOk result (λ r. StandsFor space.new r (λ bits. value_at space.old f bits || value_at space.old g bits)) }
    ensures grows { Grows space.old space.new }
    ensures levels { space.new.levels ≡ space.old.levels }
    ensures full { result ≡ Err MkFault.Full → length space.new.nodes ≡ space.new.limit }
    ensures needed { result ≡ Err MkFault.Full → IsMissing space.new (λ bits. value_at space.old f bits || value_at space.old g bits) }
{
    let one = space.one();
    ite(space, f, one, g)
}

/// The diagram that is 1 where `f` is 0. Takes about one step for each node of `f`.
pub fn not(space: &mut Space, f: Ref) -> Result<Ref, MkFault>
    requires { IsValid space.old f }
    ensures ok { IfOk result (λ r. StandsFor space.new r (λ bits. not (value_at space.old f bits))) }
    ensures grows { Grows space.old space.new }
    ensures levels { space.new.levels ≡ space.old.levels }
    ensures full { result ≡ Err MkFault.Full → length space.new.nodes ≡ space.new.limit }
    ensures needed { result ≡ Err MkFault.Full → IsMissing space.new (λ bits. not (value_at space.old f bits)) }
{
    let zero = space.zero();
    let one = space.one();
    ite(space, f, zero, one)
}

/// The diagram that is `g` where `f` is 1, and `h` where it is 0 (Brace, Rudell, Bryant 1990). Takes about one step for
/// each three of their nodes.
pub fn ite(space: &mut Space, f: Ref, g: Ref, h: Ref) -> Result<Ref, MkFault>
    requires f { IsValid space.old f }
    requires g { IsValid space.old g }
    requires h { IsValid space.old h }
    ensures ok { IfOk result (λ r. StandsFor space.new r (λ bits. if value_at space.old f bits then value_at space.old g bits else value_at space.old h bits)) }
    ensures grows { Grows space.old space.new }
    ensures levels { space.new.levels ≡ space.old.levels }
    ensures full { result ≡ Err MkFault.Full → length space.new.nodes ≡ space.new.limit }
    ensures needed { result ≡ Err MkFault.Full → IsMissing space.new (λ bits. if value_at space.old f bits then value_at space.old g bits else value_at space.old h bits) }
{
    let mut memo = Memo::new(space.allocator());
    let c = Choice { f, g, h };
    ite_below(space, &mut memo, &c)
}

/// `ite` with the answers so far.
pub(crate) fn ite_below(space: &mut Space, memo: &mut Memo, c: &Choice) -> Result<Ref, MkFault>
    requires choice { AreValid space.old c.now }
    requires memo { IsRight IsIte space.old memo.old }
    ensures ok { IfOk result (λ r. StandsBelow space.new (low_of space.old c.now) r (ite_value space.old c.now)) }
    ensures grows { Grows space.old space.new }
    ensures levels { space.new.levels ≡ space.old.levels }
    ensures full { result ≡ Err MkFault.Full → length space.new.nodes ≡ space.new.limit }
    ensures needed { result ≡ Err MkFault.Full → IsMissing space.new (λ bits. ite_value space.old c.now bits) }
    ensures memo { IsRight IsIte space.new memo.new }
{
    if let Some(r) = known(space, c) {
        return Ok(r);
    }
    if let Some(r) = memo.recall(c) {
        return Ok(r);
    }
    let level = low(space, c);
    let c0 = cofactors(space, level, c, false);
    let c1 = cofactors(space, level, c, true);
    let lo = ite_below(space, memo, &c0)?;
    let hi = ite_below(space, memo, &c1)?;
    let r = space.mk(level, lo, hi)?;
    memo.note(c, r)?;
    Ok(r)
}
