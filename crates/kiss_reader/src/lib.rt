//! Reads machines in KISS2. `docs/FORMATS.md` has the format.
//!
//! A text is read in two passes over its lines: one for each line and those above it, one for what the whole text says.
//! A fault of the first pass is told before those of the second, and within a pass that of the first line.
#![tactic(auto)]

mod begin;
mod buffer;
mod columns;
mod first_pass;
mod first_word;
mod form;
mod header;
mod laws;
mod limits;
mod place;
mod reader;
mod second_pass;
mod states;
mod take_line;

pub use begin::begins_machine;
pub use laws::{bytes_stand_for_one_machine, machines_without_fault};
pub use reader::read_kiss;
