//! A short list of bits by value, as a code of a letter.

ghost use Rattle.std.specs.Prelude.{◌≡◌, ◌==◌, ◌<◌, ℕ, false, if◌then◌else◌};
ghost use Rattle.bdd_ops.specs.Words.{bit_of};

use std::marker::Model;

/// The number of bits of a code.
pub const CODE_BITS: u32 = 2_048;

const WORD_BITS: u32 = 64;

/// 2,048 bits, numbered from 0.
#[derive(Clone, Copy)]
pub struct Code {
    bits: [u64; 32],
}

impl Model for Code {
    ghost use Rattle.std.specs.Prelude.{ℕ, List};

    ghost Value = { List ℕ };

    ghost view = { λ c. c.bits };

    ghost inverse = { λ words. record { bits = words } };
}

impl Code {
    /// Every bit is 0.
    pub fn zero() -> Code
        ensures { (k : ℕ) → bit_of result k ≡ false }
    {
        Code { bits: [0; 32] }
    }

    /// Makes bit `k` this one, and changes no other.
    pub fn set(&mut self, k: u32, value: bool)
        requires { k < CODE_BITS }
        ensures { (j : ℕ) → bit_of self.new j ≡ (if j == k then value else bit_of self.old j) }
    {
        let place = (k / WORD_BITS) as usize;
        let mask = 1u64 << (k % WORD_BITS);
        if value {
            self.bits[place] |= mask;
        } else {
            self.bits[place] &= !mask;
        }
    }

    /// Bit `k`.
    pub fn bit(&self, k: u32) -> bool
        requires { k < CODE_BITS }
        ensures { result ≡ bit_of self.now k }
    {
        let word = self.bits[(k / WORD_BITS) as usize];
        (word >> (k % WORD_BITS)) & 1 == 1
    }
}
