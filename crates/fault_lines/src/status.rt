//! How the program ends.

ghost use Rattle.std.specs.Prelude.{◌≡◌};

/// How a call of `run` ended. `code` is what the program ends with.
#[derive(Clone, Copy, Debug, PartialEq, Eq)]
pub enum Status {
    /// The job was done, and the answer is positive: for `solve`, the largest solution has a word.
    Done,
    /// The job was done, and the answer is negative: for `solve`, no word is in the largest solution.
    Negative,
    /// The words name no job.
    Usage,
    /// A file or the names are refused.
    Refused,
    /// A counted number passes its limit.
    Limit,
    /// The node table is full; no job has such a table yet.
    NodeLimit,
    /// A file cannot be read.
    ReadFault,
    /// The answer cannot be written.
    WriteFault,
    /// Memory ran out.
    Memory,
}

impl Status {
    ghost use Rattle.fault_lines.specs.Statuses.{code_of};

    /// The number that the program ends with.
    pub fn code(&self) -> u8
        ensures { result ≡ code_of self.now }
    {
        match self {
            Status::Done => 0,
            Status::Negative => 1,
            Status::Usage => 2,
            Status::Refused => 3,
            Status::Limit => 4,
            Status::NodeLimit => 5,
            Status::ReadFault => 6,
            Status::WriteFault => 7,
            Status::Memory => 8,
        }
    }
}
