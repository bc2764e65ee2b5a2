//! Reads networks of one model in BLIF-MV, after the format of BALM's networks. `docs/FORMATS.md` has the format.
//!
//! A text is read in three passes over its lines: one for the forms of the lines and for names and domains, one for rows
//! and tables, one for how signals are driven, used and reset. A fault of an earlier pass is told before those of a later
//! one, and within a pass that of the first line.
#![tactic(auto)]

mod laws;
mod network;

pub use laws::texts_without_fault;
pub use network::{bytes_stand_for_one_net, read_net};
