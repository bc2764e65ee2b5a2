//! How the program ends, and the line that it tells where it has no answer.
#![tactic(auto)]

mod status;
mod stop;

pub use status::Status;
pub use stop::{Stop, tell};
