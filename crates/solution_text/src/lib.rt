//! The text of the largest solution of a problem. Its diagrams stand in a table of nodes that grows as far as it has to.
#![tactic(auto)]

mod growing;
mod solution;
mod solving;

pub use growing::solution_of;
pub use solution::{Halt, Solution};
