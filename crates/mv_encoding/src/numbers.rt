//! Numbers in bits, the most significant bit first.

ghost use Rattle.std.specs.Prelude.{◌≡◌, ◌+◌, ◌-◌, ◌^◌, ◌<◌, ◌≤◌, ◌⊎◌, ℕ, if◌then◌else◌};
ghost use Rattle.bdd_ops.specs.Words.{bit_of};
ghost use Rattle.mv_encoding.specs.Layouts.{number_at};

use bdd_ops::{CODE_BITS, Code};

/// The weight of the first of so many bits, which is half the number of their codes.
pub(crate) fn weight(bits: u32) -> u32
    requires some { 0 < bits }
    requires few { bits ≤ 32 }
    ensures { result ≡ 2 ^ (bits - 1) }
{
    1 << (bits - 1)
}

/// The first of so many bits of a number, and what the others spell.
pub(crate) fn first_bit(bits: u32, number: u32) -> (bool, u32)
    requires some { 0 < bits }
    requires few { bits ≤ 32 }
    requires fits { number < 2 ^ bits }
    ensures sum { number ≡ (if result.0 then 2 ^ (bits - 1) else 0) + result.1 }
    ensures rest { result.1 < 2 ^ (bits - 1) }
{
    let half = weight(bits);
    if number < half {
        (false, number)
    } else {
        (true, number - half)
    }
}

/// The number that `bits` bits of a code spell, from bit `at` on.
pub(crate) fn number_in(code: &Code, at: u32, bits: u32) -> u32
    requires few { bits ≤ 32 }
    requires within { at + bits ≤ CODE_BITS }
    ensures number { result ≡ number_at at bits (bit_of code.now) }
    ensures fits { result < 2 ^ bits }
{
    if bits == 0 {
        return 0;
    }
    let rest = number_in(code, at + 1, bits - 1);
    if code.bit(at) {
        weight(bits) + rest
    } else {
        rest
    }
}

/// Makes `bits` bits of a code spell this number, from bit `at` on.
pub(crate) fn put_number(code: &mut Code, at: u32, bits: u32, number: u32)
    requires few { bits ≤ 32 }
    requires within { at + bits ≤ CODE_BITS }
    requires fits { number < 2 ^ bits }
    ensures number { number_at at bits (bit_of code.new) ≡ number }
    ensures rest { (k : ℕ) → (k < at) ⊎ (at + bits ≤ k) → bit_of code.new k ≡ bit_of code.old k }
{
    if bits == 0 {
        return;
    }
    let (bit, rest) = first_bit(bits, number);
    code.set(at, bit);
    put_number(code, at + 1, bits - 1, rest);
}
