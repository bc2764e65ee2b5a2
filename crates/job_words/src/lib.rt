//! The words of the command line, and the job that they name.
#![tactic(auto)]

mod args;
mod request;

pub use args::Args;
pub use request::{Request, request_of};
