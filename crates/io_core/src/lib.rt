//! What the program meets of the outside: a shelf that holds files by name, and sinks that take bytes.
//! Each is a trait with a written meaning and with counts of its faults, so that every caller can say why
//! a step failed. The implementations in memory serve tests, and tell all that they hold or took.
#![tactic(auto)]

mod found;
mod honest_shelf;
mod honest_sink;
mod mem_shelf;
mod mem_sink;
mod shelf;
mod sink;

pub use honest_shelf::HonestShelf;
pub use honest_sink::HonestSink;
pub use mem_shelf::MemShelf;
pub use mem_sink::MemSink;
pub use shelf::{LoadFault, Shelf};
pub use sink::{Sink, SinkFault, WriteFault, write_all, write_pieces};
