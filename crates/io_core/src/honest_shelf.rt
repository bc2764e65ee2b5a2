//! A shelf in memory that never fails: a name that it doesn't hold is an empty file.

ghost use Rattle.std.specs.Prelude.{◌≡◌, ℕ, List, Some, take, IfOk};
ghost use Rattle.io_core.specs.Causes.{LoadCause};
ghost use Rattle.io_core.specs.Files.{Files, bytes_under};
ghost use Rattle.io_core.specs.Memory.{named_files, files_of, honest_files};

use crate::found::{front_of, held_under};
use crate::shelf::{LoadFault, Shelf};
use std::alloc::Global;

/// Files in memory, of which every load succeeds while there is memory.
#[derive(Debug, Drop)]
pub struct HonestShelf {
    files: Vec<(String, Vec<u8>)>,
}

impl HonestShelf {
    /// A shelf with these files, name and bytes. Of two with one name the first counts.
    pub fn new(files: Vec<(String, Vec<u8>)>) -> HonestShelf
        ensures { honest_files result ≡ named_files files.items }
    {
        HonestShelf { files }
    }
}

impl Shelf for HonestShelf {
    ghost holds = { λ shelf. Some (files_of (honest_files shelf)) };

    ghost faults = { λ _ _. 0 };

    fn load(&mut self, alloc: Global, name: &str, max: usize) -> Result<Vec<u8>, LoadFault> {
        front_of(alloc, held_under(&self.files, name), max).map_err(|_| LoadFault::Memory)
    }
}
