//! A shelf holds files by name, and lends their bytes a front at a time.

ghost use Rattle.std.specs.Prelude.{◌≡◌, ℕ, List, Option, Some, take, IfOk};
ghost use Rattle.io_core.specs.Causes.{LoadCause};
ghost use Rattle.io_core.specs.Files.{Files, bytes_under};

use std::alloc::Global;
use thiserror::Error;

/// Why a file was not loaded.
#[derive(Clone, Copy, Debug, PartialEq, Eq, Error)]
pub enum LoadFault {
    /// The shelf could not give the file, and has counted a fault of its name.
    #[error("the file cannot be read")]
    Failed,
    #[error("out of memory")]
    Memory,
}

/// Where files come from.
pub trait Shelf {
    /// What it holds, where it tells that.
    ghost holds: { Self → Option Files };

    /// How often loads of a name have failed. No count ever falls.
    ghost faults: { Self → List ℕ → ℕ };

    /// Gives the first `max` bytes of the file of this name, or all of them where it is shorter.
    fn load(&mut self, alloc: Global, name: &str, max: usize) -> Result<Vec<u8>, LoadFault>
        ensures bytes { IfOk result (λ bytes. (files : Files) → holds self.old ≡ Some files
            → bytes.items ≡ take max (bytes_under files name.now)) }
        ensures kept { holds self.new ≡ holds self.old }
        ensures cause { LoadCause (faults self.old) (faults self.new) name.now result };
}
