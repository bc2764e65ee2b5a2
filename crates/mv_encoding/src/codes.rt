//! The sets of bits that spell some numbers, as diagrams. Each is one chain of nodes, from the last bit up.

ghost use Rattle.std.specs.Prelude.{◌≡◌, ◌==◌, ◌&&◌, ◌+◌, ◌^◌, ◌<◌, ◌≤◌, length, nat_lt, Err, IfOk};
ghost use Rattle.node_table.specs.Table.{value_at, top_of, IsValid, Grows};
ghost use Rattle.bdd_ops.specs.Meaning.{IsMissing};
ghost use Rattle.bdd_ops.specs.Recursion.{StandsBelow};
ghost use Rattle.mv_encoding.specs.Layouts.{number_at};

use crate::numbers::{first_bit, weight};
use node_table::{MkFault, Ref, Space};

/// 1 exactly where `bits` bits spell this number, from `level` on.
pub(crate) fn number_codes(
    space: &mut Space,
    level: u32,
    bits: u32,
    number: u32,
) -> Result<Ref, MkFault>
    requires few { bits ≤ 32 }
    requires fits { number < 2 ^ bits }
    requires levels { level + bits ≤ space.old.levels }
    ensures ok { IfOk result (λ r. StandsBelow space.new level r (λ b. number_at level bits b == number)) }
    ensures grows { Grows space.old space.new }
    ensures levels { space.new.levels ≡ space.old.levels }
    ensures full { result ≡ Err MkFault.Full → length space.new.nodes ≡ space.new.limit }
    ensures needed { result ≡ Err MkFault.Full → IsMissing space.new (λ b. number_at level bits b == number) }
{
    let zero = space.zero();
    if bits == 0 {
        return Ok(space.one());
    }
    let (bit, rest) = first_bit(bits, number);
    let below = number_codes(space, level + 1, bits - 1, rest)?;
    if bit {
        space.mk(level, zero, below)
    } else {
        space.mk(level, below, zero)
    }
}

/// 1 exactly where `bits` bits spell a number below `end`, from `level` on, and `rest` is 1.
pub(crate) fn codes_below(
    space: &mut Space,
    level: u32,
    bits: u32,
    end: u32,
    rest: Ref,
) -> Result<Ref, MkFault>
    requires few { bits ≤ 32 }
    requires some { 0 < end }
    requires fits { end ≤ 2 ^ bits }
    requires levels { level + bits ≤ space.old.levels }
    requires rest { IsValid space.old rest }
    requires below { level + bits ≤ top_of space.old rest }
    ensures ok { IfOk result (λ r. StandsBelow space.new level r (λ b. nat_lt (number_at level bits b) end && value_at space.old rest b)) }
    ensures grows { Grows space.old space.new }
    ensures levels { space.new.levels ≡ space.old.levels }
    ensures full { result ≡ Err MkFault.Full → length space.new.nodes ≡ space.new.limit }
    ensures needed { result ≡ Err MkFault.Full → IsMissing space.new (λ b. nat_lt (number_at level bits b) end && value_at space.old rest b) }
{
    let zero = space.zero();
    if bits == 0 {
        return Ok(rest);
    }
    let half = weight(bits);
    if end <= half {
        let below = codes_below(space, level + 1, bits - 1, end, rest)?;
        space.mk(level, below, zero)
    } else {
        let below = codes_below(space, level + 1, bits - 1, end - half, rest)?;
        space.mk(level, rest, below)
    }
}
