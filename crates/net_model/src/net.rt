//! Networks of tables and latches over variables of many values, after BLIF-MV.

use name_table::{Names, VarId};

/// What a row or a default of a table allows in one column.
#[derive(Debug, PartialEq, Eq, Drop)]
pub enum Entry {
    /// Every value.
    Any,
    /// This value.
    Value(u32),
    /// Each value of the list, which keeps the order and the repeats of the text.
    OneOf(Vec<u32>),
    /// Every value that the list doesn't have.
    NotOneOf(Vec<u32>),
    /// The value of this input column of the table, counted from 0.
    Equal(u32),
}

/// A row of a table: an entry for each input column and for each output column.
#[derive(Debug, PartialEq, Eq, Drop)]
pub struct Row {
    pub ins: Vec<Entry>,
    pub outs: Vec<Entry>,
}

/// A relation between the values of some variables: its inputs and its outputs, by their numbers.
#[derive(Debug, PartialEq, Eq, Drop)]
pub struct Table {
    pub ins: Vec<VarId>,
    pub outs: Vec<VarId>,
    pub rows: Vec<Row>,
    /// What is allowed at the outputs where no row's input entries allow the inputs.
    pub otherwise: Option<Vec<Entry>>,
}

/// A latch: its output has at each step the value that its input had at the step before.
#[derive(Clone, Copy, Debug, PartialEq, Eq)]
pub struct Latch {
    pub input: VarId,
    pub output: VarId,
}

/// A network. Variables are named by their numbers in `names`.
#[derive(Drop)]
pub struct Net {
    pub names: Names,
    pub inputs: Vec<VarId>,
    pub outputs: Vec<VarId>,
    pub tables: Vec<Table>,
    pub latches: Vec<Latch>,
    /// Tables that the first values of the latch outputs meet.
    pub resets: Vec<Table>,
}
