//! Why work on diagrams ended early.

ghost use Rattle.std.specs.Prelude.{◌≡◌, length};
ghost use Rattle.node_table.specs.Table.{IsTable};
ghost use Rattle.det_core.specs.Faults.{IsStopped};

use node_table::{MkFault, Space};
use std::alloc::AllocError;
use thiserror::Error;

/// Why work on diagrams ended early.
#[derive(Clone, Copy, PartialEq, Eq, Debug, Error)]
pub enum SolveFault {
    /// The space holds as many nodes as it may, `limit` of them, and one more was needed. So many states were found by then.
    #[error("node limit {limit} reached after {states} states")]
    NodeLimit { limit: u64, states: u64 },

    /// There is no memory for more.
    #[error("out of memory")]
    Memory,
}

impl SolveFault {
    /// The fault of work in which a node could not be made, after so many states.
    pub fn stopped(space: &Space, fault: MkFault, states: u64) -> SolveFault
        ensures { IsStopped space.now fault states result }
    {
        match fault {
            MkFault::Full => SolveFault::NodeLimit {
                limit: space.limit(),
                states,
            },
            MkFault::Memory => SolveFault::Memory,
        }
    }
}

impl From<AllocError> for SolveFault {
    ghost use Rattle.std.specs.Prelude.{◌≡◌};
    ghost use Rattle.det_core.specs.declared.fault.SolveFault.TheVariants.{Memory};

    ghost from_gives = { λ error result. result ≡ Memory };

    fn from(_error: AllocError) -> SolveFault {
        SolveFault::Memory
    }
}
