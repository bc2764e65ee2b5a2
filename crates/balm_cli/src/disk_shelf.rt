//! Files by their names in the file system.

ghost use Rattle.std.specs.Prelude.{◌≡◌, ℕ, List, None};

use io_core::{LoadFault, Shelf};
use std::alloc::Global;
use std::fs;
use std::io::{self, ErrorKind, Read};
use std::rt::Files;

/// The real files. It doesn't tell what it holds, and its one count of faults is that of every name.
#[derive(Drop)]
pub struct DiskShelf<'a, R> {
    rt: &'a R,
    faults: u64,
}

impl<'a, R: Files> DiskShelf<'a, R> {
    pub fn new(rt: &'a R) -> DiskShelf<'a, R> {
        DiskShelf { rt, faults: 0 }
    }

    /// The first `max` bytes of a file.
    fn front(&self, alloc: Global, name: &str, max: usize) -> io::Result<Vec<u8>> {
        let mut bytes = Vec::new(alloc);
        fs::open(self.rt, name)?
            .take(max as u64)
            .read_to_end(&mut bytes)?;
        Ok(bytes)
    }
}

impl<R: Files> Shelf for DiskShelf<'_, R> {
    ghost holds = { λ _. None };

    ghost faults = { λ shelf _. shelf.faults };

    fn load(&mut self, alloc: Global, name: &str, max: usize) -> Result<Vec<u8>, LoadFault> {
        match self.front(alloc, name, max) {
            Ok(bytes) => Ok(bytes),
            Err(fault) => {
                if fault.kind() == ErrorKind::OutOfMemory {
                    return Err(LoadFault::Memory);
                }
                self.faults = self.faults.saturating_add(1);
                Err(LoadFault::Failed)
            }
        }
    }
}
