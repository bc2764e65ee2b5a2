//! What a problem is answered.

/// The text of the largest solution, and whether it has a word.
#[derive(Drop)]
pub struct Solution {
    pub text: Vec<u8>,
    pub has_word: bool,
}

/// Why a problem is not solved.
#[derive(Debug, Clone, Copy, PartialEq, Eq)]
pub enum Halt {
    /// It has more than 2,000 bits.
    Bits,
    Memory,
}
