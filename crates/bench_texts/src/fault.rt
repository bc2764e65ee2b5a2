//! Why a layer of texts gave no counts.

use name_table::{DomainFault, NameFault};
use net_model::TextFault;
use std::alloc::AllocError;
use thiserror::Error;

/// Why a layer of texts gave no counts.
#[derive(Clone, Copy, Debug, Error)]
pub enum Fault {
    /// There are more values than the layer has names for.
    #[error("too many values")]
    TooManyValues,

    /// What was counted isn't what was made.
    #[error("the counts differ from what was made")]
    Differs,

    #[error("{0}")]
    Domain(#[from] DomainFault),

    #[error("{0}")]
    Name(#[from] NameFault),

    #[error("{0}")]
    Text(#[from] TextFault),

    #[error("out of memory")]
    Memory(#[from(alloc)] AllocError),
}
