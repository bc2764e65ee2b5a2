//! What the layers of automata cost: each function makes an automaton, checks what it counted, and answers the counts.
#![tactic(auto)]

mod fault;
mod registers;
mod subsets;

pub use fault::Fault;
pub use subsets::{SubsetCounts, count_subsets, count_targets};
