//! A sink in memory that has a given room and fails where it was told to.

ghost use Rattle.std.specs.Prelude.{◌≡◌, ℕ, ◌+◌, ◌<◌, ◌≤◌, List, [], length, take, Some, IfOk, OnOk, OnErr};
ghost use Rattle.io_core.specs.Causes.{PutCause};
ghost use Rattle.io_core.specs.Gained.{gained};
ghost use Rattle.io_core.specs.Memory.{sink_state, IsMemPut};

use crate::sink::{Sink, SinkFault};
use std::alloc::Global;

/// A sink that takes bytes up to its room, and fails in the calls of given numbers.
#[derive(Debug, Drop)]
pub struct MemSink {
    taken: Vec<u8>,
    room: usize,
    failing: Vec<u64>,
    calls: u64,
    faults: u64,
    wants: u64,
}

impl MemSink {
    /// A sink that takes at most `room` bytes and fails in the calls whose numbers stand in `failing`;
    /// the first call has the number 0.
    pub fn new(alloc: Global, failing: Vec<u64>, room: usize) -> MemSink
        ensures { sink_state result ≡ record {
          taken = [];
          room = room;
          failing = failing.items;
          calls = 0;
          faults = 0;
          wants = 0;
        } }
    {
        MemSink {
            taken: Vec::new(alloc),
            room,
            failing,
            calls: 0,
            faults: 0,
            wants: 0,
        }
    }

    /// What it has taken so far.
    pub fn taken(&self) -> &[u8]
        ensures { result.now ≡ (sink_state self.now).taken }
    {
        &self.taken
    }
}

impl Sink for MemSink {
    ghost contents = { λ sink. Some (sink_state sink).taken };

    ghost faults = { λ sink. (sink_state sink).faults };

    ghost wants = { λ sink. (sink_state sink).wants };

    fn put(&mut self, bytes: &[u8]) -> Result<usize, SinkFault>
        ensures bound { IfOk result (λ n. n ≤ length bytes.now) }
        ensures some { IfOk result (λ n. 0 < length bytes.now → 0 < n) }
        ensures taken { IfOk result (λ n. Some (sink_state self.new).taken
            ≡ gained (Some (sink_state self.old).taken) (take n bytes.now)) }
        ensures refused { OnErr result (Some (sink_state self.new).taken ≡ Some (sink_state self.old).taken) }
        ensures cause { PutCause (sink_state self.old).faults (sink_state self.new).faults (sink_state self.old).wants (sink_state self.new).wants result }
        ensures exact { IsMemPut (sink_state self.old) bytes.now result (sink_state self.new) }
    {
        let number = self.calls;
        self.calls = self.calls.saturating_add(1);
        if self.failing.contains(&number) || self.room <= self.taken.len() {
            self.faults = self.faults.saturating_add(1);
            return Err(SinkFault::Failed);
        }
        let fits = bytes.len().min(self.room - self.taken.len());
        if self.taken.extend_from_slice(&bytes[..fits]).is_err() {
            self.wants = self.wants.saturating_add(1);
            return Err(SinkFault::Memory);
        }
        Ok(fits)
    }
}
