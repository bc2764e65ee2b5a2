//! Why a text is refused.

use std::alloc::AllocError;
use thiserror::Error;

/// A limit of the texts that are read, and of the problem that they make.
#[derive(Clone, Copy, Debug, PartialEq, Eq, Error)]
pub enum Which {
    /// Bytes of one file.
    #[error("Bytes")]
    Bytes,
    /// Different names of one net or machine.
    #[error("Signals")]
    Signals,
    /// Values of one domain, or states of one machine.
    #[error("Values")]
    Values,
    /// Columns of one table.
    #[error("Columns")]
    Columns,
    /// Rows of one file.
    #[error("Rows")]
    Rows,
    /// Bits of the problem.
    #[error("Bits")]
    Bits,
    /// Letters of a word file.
    #[error("Letters")]
    Letters,
}

/// What is wrong with a text. `docs/FORMATS.md` says when each comes.
#[derive(Clone, Copy, Debug, PartialEq, Eq, Error)]
pub enum TextKind {
    #[error("UnknownDirective")]
    UnknownDirective,
    #[error("BadCount")]
    BadCount,
    #[error("UnknownValue")]
    UnknownValue,
    #[error("RowWidth")]
    RowWidth,
    #[error("EqDomain")]
    EqDomain,
    #[error("DrivenTwice")]
    DrivenTwice,
    #[error("Undriven")]
    Undriven,
    #[error("ResetNotConstant")]
    ResetNotConstant,
    #[error("AccShape")]
    AccShape,
    #[error("NoModel")]
    NoModel,
    #[error("TwiceDefault")]
    TwiceDefault,
    #[error("Limit {0}")]
    Limit(Which),
    #[error("Hierarchy")]
    Hierarchy,
    #[error("BadName")]
    BadName,
    #[error("BadDomain")]
    BadDomain,
    #[error("BadWidth")]
    BadWidth,
    #[error("BadBit")]
    BadBit,
    #[error("UnknownReset")]
    UnknownReset,
    #[error("MissingWidths")]
    MissingWidths,
    #[error("NoRows")]
    NoRows,
    #[error("BadHeader")]
    BadHeader,
    #[error("BadLetter")]
    BadLetter,
}

/// Why a text was not read.
#[derive(Clone, Copy, Debug, PartialEq, Eq, Error)]
pub enum TextFault {
    /// The text has a fault at this line, counted from 1.
    #[error("line {line}: {kind}")]
    At { line: u64, kind: TextKind },
    #[error("out of memory")]
    Memory,
}

impl From<AllocError> for TextFault {
    ghost use Rattle.std.specs.Prelude.{◌≡◌};
    ghost use Rattle.net_model.specs.declared.text_fault.TextFault.TheVariants.{Memory};

    ghost from_gives = { λ error result. result ≡ Memory };

    fn from(_error: AllocError) -> Self {
        TextFault::Memory
    }
}
