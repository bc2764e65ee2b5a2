//! What the layers of diagrams cost: each function makes diagrams, checks what it counted, and answers the counts.
#![tactic(auto)]

mod conjunctions;
mod fault;
mod nodes;
mod relations;

pub use conjunctions::{ConjunctionCounts, count_blocked, count_interleaved};
pub use fault::Fault;
pub use nodes::{NodeCounts, count_nodes};
pub use relations::{RelationCounts, count_chain, count_drawn};
