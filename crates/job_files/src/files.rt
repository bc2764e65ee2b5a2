//! Reads the file of a network.

ghost use Rattle.std.specs.Prelude.{◌≡◌, ◌≤◌, ℕ, List, Some, IfOk, IfErr};
ghost use Rattle.io_core.specs.Files.{Files, bytes_under};
ghost use Rattle.net_model.specs.Files.{file_of, IsSoundFile, StandsForFile};
ghost use Rattle.job_files.specs.Reads.{IsWithin, IsReadAs, KeepsLimits, IsFaultIn, StopsAtFile};

use blifmv_reader::read_net;
use fault_lines::Stop;
use io_core::{LoadFault, Shelf};
use net_model::{File, TextFault};
use std::alloc::Global;

/// The most bytes of one file.
pub(crate) const MAX_BYTES: usize = 16_777_216;

/// The bytes of a file, at most `MAX_BYTES`.
fn load_file<'a, H: Shelf>(alloc: Global, shelf: &mut H, name: &'a str) -> Result<Vec<u8>, Stop<'a>>
    ensures ok { IfOk result (λ bytes. (files : Files) → H.holds shelf.old ≡ Some files
        → IsWithin (bytes_under files name.now) × (bytes.items ≡ bytes_under files name.now)) }
    ensures stopped { IfErr result (StopsAtFile name.now (H.holds shelf.old) (H.faults shelf.old) (H.faults shelf.new)) }
    ensures kept { H.holds shelf.new ≡ H.holds shelf.old }
    ensures later { (other : List ℕ) → H.faults shelf.old other ≤ H.faults shelf.new other }
{
    match shelf.load(alloc, name, MAX_BYTES + 1) {
        Ok(bytes) => {
            if bytes.len() > MAX_BYTES {
                return Err(Stop::TooLong(name));
            }
            Ok(bytes)
        }
        Err(LoadFault::Failed) => Err(Stop::Unreadable(name)),
        Err(LoadFault::Memory) => Err(Stop::Memory),
    }
}

/// The network that a file stands for.
pub fn read_file<'a, H: Shelf>(
    alloc: Global,
    shelf: &mut H,
    name: &'a str,
) -> Result<File, Stop<'a>>
    ensures ok { IfOk result (λ file. (files : Files) → H.holds shelf.old ≡ Some files
        → IsReadAs files name.now (file_of file)) }
    ensures sound { IfOk result (λ file. IsSoundFile (file_of file)) }
    ensures stopped { IfErr result (StopsAtFile name.now (H.holds shelf.old) (H.faults shelf.old) (H.faults shelf.new)) }
    ensures kept { H.holds shelf.new ≡ H.holds shelf.old }
    ensures later { (other : List ℕ) → H.faults shelf.old other ≤ H.faults shelf.new other }
{
    let bytes = match load_file(alloc, shelf, name) {
        Ok(bytes) => bytes,
        Err(stop) => return Err(stop),
    };
    match read_text(alloc, &bytes) {
        Ok(file) => Ok(file),
        Err(TextFault::Memory) => Err(Stop::Memory),
        Err(TextFault::At { line, kind }) => Err(Stop::Faulty(name, line, kind)),
    }
}

/// The network that the bytes stand for.
fn read_text(alloc: Global, bytes: &[u8]) -> Result<File, TextFault>
    ensures stands { IfOk result (λ file. StandsForFile bytes.now (file_of file)) }
    ensures limits { IfOk result (λ file. KeepsLimits bytes.now (file_of file)) }
    ensures sound { IfOk result (λ file. IsSoundFile (file_of file)) }
    ensures fault { IfErr result (IsFaultIn bytes.now) }
{
    match read_net(alloc, bytes) {
        Ok(net) => Ok(File::Net(net)),
        Err(fault) => Err(fault),
    }
}
