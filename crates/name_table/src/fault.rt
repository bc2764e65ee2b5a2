//! Why a domain isn't made, and why a table of names doesn't take a name.

use std::alloc::AllocError;
use thiserror::Error;

/// Why names are no domain. Of several reasons the first counts.
#[derive(Clone, Copy, Debug, PartialEq, Eq, Error)]
pub enum DomainFault {
    #[error("a domain without values")]
    Empty,
    #[error("a value name stands twice")]
    Repeated,
    /// More than 131,072 names.
    #[error("too many values")]
    TooMany,
    #[error("out of memory")]
    Memory,
}

impl From<AllocError> for DomainFault {
    ghost use Rattle.std.specs.Prelude.{◌≡◌};
    ghost use Rattle.name_table.specs.declared.fault.DomainFault.TheVariants.{Memory};

    ghost from_gives = { λ error result. result ≡ Memory };

    fn from(_error: AllocError) -> Self {
        DomainFault::Memory
    }
}

/// Why a table doesn't take a name with a domain.
#[derive(Clone, Copy, Debug, PartialEq, Eq, Error)]
pub enum NameFault {
    /// The name is known with another domain.
    #[error("the name has another domain")]
    DomainDiffers = 1,
    /// The name is new, and the table has 4,096 names.
    #[error("too many names")]
    TooManyVars = 2,
    /// The name is new, and its domain has more than 65,536 values.
    #[error("too many values")]
    TooManyValues = 3,
    #[error("out of memory")]
    Memory,
}

impl From<AllocError> for NameFault {
    ghost use Rattle.std.specs.Prelude.{◌≡◌};
    ghost use Rattle.name_table.specs.declared.fault.NameFault.TheVariants.{Memory};

    ghost from_gives = { λ error result. result ≡ Memory };

    fn from(_error: AllocError) -> Self {
        NameFault::Memory
    }
}
