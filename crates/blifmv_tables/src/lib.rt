//! Reads the tables, latches, inputs and outputs of a BLIF-MV network: the second of the passes over the text.
#![tactic(auto)]

mod draft;
mod laws;
mod lookup;
mod resolve;
mod rows;
mod second_pass;
mod side;

pub use laws::rows_without_fault;
pub use second_pass::read_tables;
