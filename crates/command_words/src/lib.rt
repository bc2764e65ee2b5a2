//! The words of the command line, and what `clap` reads in them.
#![tactic(auto)]

mod args;
mod command;
mod reading;

pub use args::Args;
pub use reading::{Given, given_by};
