//! Why letters have no coding.

use std::alloc::AllocError;
use thiserror::Error;

/// Why letters have no coding.
#[derive(Clone, Copy, PartialEq, Eq, Debug, Error)]
pub enum CodeFault {
    /// A letter has this many bits, and at most 2,000 are coded.
    #[error("a letter has {0} bits, and at most 2000 are coded")]
    Bits(u64),

    /// There is no memory for the coding.
    #[error("out of memory")]
    Memory,
}

impl From<AllocError> for CodeFault {
    ghost use Rattle.std.specs.Prelude.{◌≡◌};
    ghost use Rattle.mv_encoding.specs.declared.fault.CodeFault.TheVariants.{Memory};

    ghost from_gives = { λ error result. result ≡ Memory };

    fn from(_error: AllocError) -> CodeFault {
        CodeFault::Memory
    }
}
