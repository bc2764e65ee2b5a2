//! The largest solution in synchronous mode: the safe words of a problem, as a deterministic automaton over X's letters.
#![tactic(auto)]

mod coding;
mod composing;
mod machine;
mod others;
mod safe;

pub use det_core::SolveFault;
pub use safe::safe_words;
