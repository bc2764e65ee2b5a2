//! Standard output and standard error as sinks.

ghost use Rattle.std.specs.Prelude.{◌≡◌, ℕ, List, None};

use io_core::{Sink, SinkFault, write_all};
use std::io::Write;

/// A stream of bytes that leave the program. It doesn't tell what it took, and takes no memory.
#[derive(Drop)]
pub struct StreamSink<W> {
    stream: W,
    faults: u64,
}

impl<W: Write> StreamSink<W> {
    pub fn new(stream: W) -> StreamSink<W> {
        StreamSink { stream, faults: 0 }
    }
}

impl<W: Write> Sink for StreamSink<W> {
    ghost contents = { λ _. None };

    ghost faults = { λ sink. sink.faults };

    ghost wants = { λ _. 0 };

    fn put(&mut self, bytes: &[u8]) -> Result<usize, SinkFault> {
        match self.stream.write(bytes) {
            Ok(taken) if taken > 0 || bytes.is_empty() => Ok(taken),
            _ => {
                self.faults = self.faults.saturating_add(1);
                Err(SinkFault::Failed)
            }
        }
    }
}

/// Tells a line. Where the stream refuses, nothing more can be told.
pub fn tell<W: Write>(sink: &mut StreamSink<W>, line: &[u8]) {
    let _ = write_all(sink, line);
}
