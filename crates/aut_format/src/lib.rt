//! Automata as text, in the layout of BALM's automaton files.
#![tactic(auto)]

mod auto;
mod automaton;
mod counts;
mod fields;
mod letters;
mod lines;
mod rows;

pub use auto::{auto_text, write_auto};
pub use automaton::as_auto;
pub use counts::rows_of;
