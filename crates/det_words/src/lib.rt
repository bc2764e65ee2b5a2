//! Whether a deterministic automaton has a word.
#![tactic(auto)]

mod reached;
mod reaching;

pub use reaching::has_some_word;
