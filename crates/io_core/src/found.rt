//! How the shelves in memory look a name up.

ghost use Rattle.std.specs.Prelude.{◌≡◌, ◌≤◌, List, length, take, Some, IfOk, OnOk};
ghost use Rattle.io_core.specs.Files.{bytes_under};
ghost use Rattle.io_core.specs.Memory.{named_files, files_of};
ghost use Rattle.io_core.specs.Memory as memory;

use std::alloc::{AllocError, Global};

/// The place of the first file of this name, or the number of files where no file has it.
pub fn place_of(files: &[(String, Vec<u8>)], name: &str) -> usize
    ensures place { result ≡ memory.place_of (named_files files.now) name.now }
    ensures within { result ≤ length files.now }
{
    files
        .iter()
        .position(|file| name == file.0.as_str())
        .unwrap_or(files.len())
}

/// The bytes under a name, none where no file has it.
pub fn held_under<'a>(files: &'a [(String, Vec<u8>)], name: &str) -> &'a [u8]
    ensures { result.now ≡ bytes_under (files_of (named_files files.now)) name.now }
{
    let place = place_of(files, name);
    if place < files.len() {
        &files[place].1
    } else {
        &[]
    }
}

/// A copy of the first `max` bytes, or of all where there are fewer.
pub fn front_of(alloc: Global, bytes: &[u8], max: usize) -> Result<Vec<u8>, AllocError>
    ensures { IfOk result (λ front. front.items ≡ take max bytes.now) }
{
    bytes[..bytes.len().min(max)].to_vec(alloc)
}
