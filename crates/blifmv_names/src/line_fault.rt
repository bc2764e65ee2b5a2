//! Why a line is not taken.

use net_model::TextKind;
use std::alloc::AllocError;

/// Why a line is not taken.
#[derive(Clone, Copy, Debug, PartialEq, Eq)]
pub enum LineFault {
    /// The line has a fault of this kind.
    Kind(TextKind),
    /// There is no memory for its names.
    Memory,
}

impl From<AllocError> for LineFault {
    ghost use Rattle.std.specs.Prelude.{◌≡◌};
    ghost use Rattle.blifmv_names.specs.declared.line_fault.LineFault.TheVariants.{Memory};

    ghost from_gives = { λ error result. result ≡ Memory };

    fn from(_error: AllocError) -> Self {
        LineFault::Memory
    }
}
