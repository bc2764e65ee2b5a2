//! The words that begin the lines of a machine's text.

/// What a line of a machine's text is told to be by its first word.
#[derive(Clone, Copy, Debug, PartialEq, Eq)]
pub enum KissDirective {
    /// `.i`
    Inputs,
    /// `.o`
    Outputs,
    /// `.p`, the number of rows, or `.s`, that of states: neither is compared.
    Count,
    /// `.r`
    Reset,
    /// `.ilb`
    InputNames,
    /// `.ob`
    OutputNames,
    /// `.end`, also spelled `.e`
    End,
    /// Any other word that begins with a dot.
    Unknown,
    /// Any other word: it is the first of a row.
    Row,
}
