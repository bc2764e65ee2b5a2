//! Walks over reduced ordered binary decision diagrams: the paths of a diagram to the constant 1, what is left of it where
//! its first levels are fixed, and the least bits at which it has the value 1. `split` alone changes the `Space`.
#![tactic(auto)]

mod cuts;
mod joins;
mod least_bits;
mod pairs;
mod paths;
mod split_memo;
mod splits;
mod trail;

pub use bdd_ops::{CODE_BITS, Code};
pub use cuts::cut;
pub use least_bits::least;
pub use paths::{Lit, Paths};
pub use splits::{Piece, split};
