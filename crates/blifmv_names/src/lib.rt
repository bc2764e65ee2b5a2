//! Reads what the lines of a BLIF-MV network say, and the names and domains of its signals: the first of the passes
//! over the text.
#![tactic(auto)]

mod first_pass;
mod giving;
mod laws;
mod line_fault;
mod mention;
mod place;
mod signal_table;
mod take_line;

pub use first_pass::read_names;
pub use laws::lines_without_fault;
pub use line_fault::LineFault;
pub use place::{Place, Width};
pub use signal_table::SignalTable;
