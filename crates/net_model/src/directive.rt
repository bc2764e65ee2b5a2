//! The words that begin the lines of a network's text.

/// What a line of a network's text is told to be by its first word.
#[derive(Clone, Copy, Debug, PartialEq, Eq)]
pub enum Directive {
    /// `.model`
    Model,
    /// `.inputs`
    Inputs,
    /// `.outputs`
    Outputs,
    /// `.mv`
    Domains,
    /// `.table`, also spelled `.names`
    Table,
    /// `.reset`, also spelled `.r`
    Reset,
    /// `.latch`
    Latch,
    /// `.default`, also spelled `.def`
    Default,
    /// `.subckt`
    Instance,
    /// `.end`
    End,
    /// Any other word that begins with a dot.
    Unknown,
    /// Any other word: it is the first of a row.
    Row,
}
