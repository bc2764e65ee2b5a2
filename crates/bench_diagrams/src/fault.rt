//! Why a layer of diagrams gave no counts.

use mv_encoding::CodeFault;
use net_model::TextFault;
use net_relation::SolveFault;
use node_table::MkFault;
use std::alloc::AllocError;
use thiserror::Error;

/// Why a layer of diagrams gave no counts.
#[derive(Clone, Copy, Debug, Error)]
pub enum Fault {
    /// There are more nodes than the levels of a space are shaped for here.
    #[error("too many nodes")]
    TooManyNodes,

    /// There is no pair, or there are more than the layer is meant for.
    #[error("the number of pairs is out of range")]
    PairsOutOfRange,

    /// What was counted isn't what was made.
    #[error("the counts differ from what was made")]
    Differs,

    #[error("{0}")]
    Node(#[from] MkFault),

    #[error("{0}")]
    Text(#[from] TextFault),

    #[error("{0}")]
    Code(#[from] CodeFault),

    #[error("{0}")]
    Solve(#[from] SolveFault),

    #[error("out of memory")]
    Memory(#[from(alloc)] AllocError),
}
