//! A sink in memory that never fails.

ghost use Rattle.std.specs.Prelude.{◌≡◌, ℕ, ◌<◌, ◌≤◌, List, [], length, take, Some, IfOk, OnErr};
ghost use Rattle.io_core.specs.Causes.{PutCause};
ghost use Rattle.io_core.specs.Gained.{gained};
ghost use Rattle.io_core.specs.Memory.{honest_taken, honest_wants, IsHonestPut};

use crate::sink::{Sink, SinkFault};
use std::alloc::Global;

/// A sink that takes every piece whole while there is memory.
#[derive(Debug, Drop)]
pub struct HonestSink {
    bytes: Vec<u8>,
    wants: u64,
}

impl HonestSink {
    /// A sink that has taken nothing.
    pub fn new(alloc: Global) -> HonestSink
        ensures taken { honest_taken result ≡ [] }
        ensures wants { honest_wants result ≡ 0 }
    {
        HonestSink {
            bytes: Vec::new(alloc),
            wants: 0,
        }
    }

    /// What it has taken so far.
    pub fn taken(&self) -> &[u8]
        ensures { result.now ≡ honest_taken self.now }
    {
        &self.bytes
    }
}

impl Sink for HonestSink {
    ghost contents = { λ sink. Some (honest_taken sink) };

    ghost faults = { λ _. 0 };

    ghost wants = { honest_wants };

    fn put(&mut self, bytes: &[u8]) -> Result<usize, SinkFault>
        ensures bound { IfOk result (λ n. n ≤ length bytes.now) }
        ensures some { IfOk result (λ n. 0 < length bytes.now → 0 < n) }
        ensures taken { IfOk result (λ n. Some (honest_taken self.new) ≡ gained (Some (honest_taken self.old)) (take n bytes.now)) }
        ensures refused { OnErr result (Some (honest_taken self.new) ≡ Some (honest_taken self.old)) }
        ensures cause { PutCause 0 0 (honest_wants self.old) (honest_wants self.new) result }
        ensures exact { IsHonestPut self.old bytes.now result self.new }
    {
        if self.bytes.extend_from_slice(bytes).is_err() {
            self.wants = self.wants.saturating_add(1);
            return Err(SinkFault::Memory);
        }
        Ok(bytes.len())
    }
}
