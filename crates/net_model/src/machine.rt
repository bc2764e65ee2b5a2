//! Machines as KISS2 has them: rows over binary columns, each from a state to a state.

use name_table::Scope;

/// What a character of a pattern allows in its column.
#[derive(Clone, Copy, Debug, PartialEq, Eq)]
pub enum Bit {
    /// `0`
    Zero,
    /// `1`
    One,
    /// `-`: both values.
    Either,
}

/// A row of a machine: a step from the present state to the next one by each letter that the patterns allow. A state is
/// told by its number, and where there is none, each state will do.
#[derive(Debug, PartialEq, Eq, Drop)]
pub struct KissRow {
    pub input: Vec<Bit>,
    pub present: Option<u32>,
    pub next: Option<u32>,
    pub output: Vec<Bit>,
}

/// A machine. Its columns are variables of the values `0` and `1`, and its states are numbered from 0.
#[derive(Drop)]
pub struct Machine {
    pub inputs: Scope,
    pub outputs: Scope,
    pub states: u32,
    /// The state in which it starts.
    pub reset: u32,
    pub rows: Vec<KissRow>,
}
