//! A shelf in memory that fails where it was told to.

ghost use Rattle.std.specs.Prelude.{◌≡◌, ℕ, List, [], Some, take, IfOk};
ghost use Rattle.io_core.specs.Causes.{LoadCause};
ghost use Rattle.io_core.specs.Files.{Files, bytes_under};
ghost use Rattle.io_core.specs.Memory.{named_files, files_of, shelf_state, failures_of, IsMemLoad};

use crate::found::{front_of, place_of};
use crate::shelf::{LoadFault, Shelf};
use std::alloc::Global;

/// Files in memory, of which the loads of given numbers fail, and every load of a name that isn't held.
#[derive(Debug, Drop)]
pub struct MemShelf {
    files: Vec<(String, Vec<u8>)>,
    failing: Vec<u64>,
    loads: u64,
    // For each failed load the place of its file, or the number of files for a name that isn't held.
    failed: Vec<usize>,
}

impl MemShelf {
    /// A shelf with these files, name and bytes, of which the loads whose numbers stand in `failing` fail;
    /// the first load has the number 0. Of two files with one name the first counts.
    pub fn new(alloc: Global, files: Vec<(String, Vec<u8>)>, failing: Vec<u64>) -> MemShelf
        ensures { shelf_state result ≡ record {
          files = named_files files.items;
          failing = failing.items;
          loads = 0;
          failed = [];
        } }
    {
        MemShelf {
            files,
            failing,
            loads: 0,
            failed: Vec::new(alloc),
        }
    }
}

impl Shelf for MemShelf {
    ghost holds = { λ shelf. Some (files_of (named_files shelf.files.items)) };

    ghost faults = { λ shelf. failures_of (shelf_state shelf) };

    fn load(&mut self, alloc: Global, name: &str, max: usize) -> Result<Vec<u8>, LoadFault>
        ensures bytes { IfOk result (λ bytes. (files : Files)
            → Some (files_of (shelf_state self.old).files) ≡ Some files
            → bytes.items ≡ take max (bytes_under files name.now)) }
        ensures kept { (shelf_state self.new).files ≡ (shelf_state self.old).files }
        ensures cause { LoadCause (failures_of (shelf_state self.old)) (failures_of (shelf_state self.new)) name.now result }
        ensures exact { IsMemLoad (shelf_state self.old) name.now result (shelf_state self.new) }
    {
        let number = self.loads;
        self.loads = self.loads.saturating_add(1);
        let place = place_of(&self.files, name);
        if self.failing.contains(&number) || place == self.files.len() {
            self.failed.push(place).map_err(|_| LoadFault::Memory)?;
            return Err(LoadFault::Failed);
        }
        front_of(alloc, &self.files[place].1, max).map_err(|_| LoadFault::Memory)
    }
}
