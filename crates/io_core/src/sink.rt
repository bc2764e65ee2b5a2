//! A sink takes bytes piece by piece. A text is written whole by `write_all`, and a line that is at hand in pieces by
//! `write_pieces`, which takes no memory to join them.

ghost use Rattle.std.specs.Prelude.{◌≡◌, ℕ, ◌+◌, ◌<◌, ◌≤◌, List, ◌++◌, length, take, Option, IfOk, OnOk, OnErr};
ghost use Rattle.io_core.specs.Causes.{PutCause, WriteCause};
ghost use Rattle.io_core.specs.Gained.{gained, joined, GainsFrontOf};

use thiserror::Error;

/// Why a sink took nothing of a piece.
#[derive(Clone, Copy, Debug, PartialEq, Eq, Error)]
pub enum SinkFault {
    /// The sink has counted a fault.
    #[error("the sink takes no more")]
    Failed,
    /// The sink has counted a want of memory.
    #[error("out of memory")]
    Memory,
}

/// Why a text was not written whole.
#[derive(Clone, Copy, Debug, PartialEq, Eq, Error)]
pub enum WriteFault {
    #[error("the text cannot be written")]
    Failed,
    #[error("out of memory")]
    Memory,
}

/// Where bytes go.
pub trait Sink {
    /// What it has taken so far, where it tells that.
    ghost contents: { Self → Option (List ℕ) };

    /// How often it has failed. The count never falls.
    ghost faults: { Self → ℕ };

    /// How often it wanted memory and had none. The count never falls.
    ghost wants: { Self → ℕ };

    /// Takes a front of the bytes, at least one where there is one, and answers how many it took.
    fn put(&mut self, bytes: &[u8]) -> Result<usize, SinkFault>
        ensures bound { IfOk result (λ n. n ≤ length bytes.now) }
        ensures some { IfOk result (λ n. 0 < length bytes.now → 0 < n) }
        ensures taken { IfOk result (λ n. contents self.new ≡ gained (contents self.old) (take n bytes.now)) }
        ensures refused { OnErr result (contents self.new ≡ contents self.old) }
        ensures cause { PutCause (faults self.old) (faults self.new) (wants self.old) (wants self.new) result };
}

/// Writes the whole text, or a front of it where the sink refuses. It takes no memory itself.
pub fn write_all<O: Sink>(sink: &mut O, bytes: &[u8]) -> Result<(), WriteFault>
    ensures ok { OnOk result (O.contents sink.new ≡ gained (O.contents sink.old) bytes.now) }
    ensures refused { OnErr result (GainsFrontOf (O.contents sink.old) (O.contents sink.new) bytes.now) }
    ensures cause { WriteCause (O.faults sink.old) (O.faults sink.new) (O.wants sink.old) (O.wants sink.new) result }
{
    let mut done = 0;
    while done < bytes.len() {
        match sink.put(&bytes[done..]) {
            Ok(taken) => done += taken,
            Err(SinkFault::Failed) => return Err(WriteFault::Failed),
            Err(SinkFault::Memory) => return Err(WriteFault::Memory),
        }
    }
    Ok(())
}

/// Writes one text that is at hand in pieces, without joining them in memory.
pub fn write_pieces<O: Sink>(sink: &mut O, pieces: &[&[u8]]) -> Result<(), WriteFault>
    ensures ok { OnOk result (O.contents sink.new ≡ gained (O.contents sink.old) (joined pieces.now)) }
    ensures refused { OnErr result (GainsFrontOf (O.contents sink.old) (O.contents sink.new) (joined pieces.now)) }
    ensures cause { WriteCause (O.faults sink.old) (O.faults sink.new) (O.wants sink.old) (O.wants sink.new) result }
{
    for piece in pieces {
        write_all(sink, piece)?;
    }
    Ok(())
}
