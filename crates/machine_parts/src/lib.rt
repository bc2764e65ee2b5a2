//! Machines of KISS2 as diagrams: the steps of a machine as one set of bits, over a coding for each column and for the state
//! before and behind a step.
#![tactic(auto)]

mod part;
mod rows;

pub use part::machine_part;
