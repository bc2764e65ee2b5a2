//! Why a layer of automata gave no counts.

use det_core::SolveFault;
use node_table::MkFault;
use std::alloc::AllocError;
use thiserror::Error;

/// Why a layer of automata gave no counts.
#[derive(Clone, Copy, Debug, Error)]
pub enum Fault {
    /// There is no latch, or there are more than the layer is meant for.
    #[error("the number of latches is out of range")]
    LatchesOutOfRange,

    /// What was counted isn't what was made.
    #[error("the counts differ from what was made")]
    Differs,

    #[error("{0}")]
    Node(#[from] MkFault),

    #[error("{0}")]
    Solve(#[from] SolveFault),

    #[error("out of memory")]
    Memory(#[from(alloc)] AllocError),
}
