//! Tests how the signals of a BLIF-MV network are driven, reset and used, and tells the first line with a fault: the third
//! of the passes over the text.
#![tactic(auto)]

mod above;
mod laws;
mod line;
mod lookup;
mod sets;
mod third_pass;
mod whole;

pub use laws::{signals_are_known, signals_without_fault};
pub use third_pass::check_signals;
