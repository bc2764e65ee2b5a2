//! Deterministic automata whose letters are sets of bits, as diagrams, and the one way in which work on them ends early.
#![tactic(auto)]

mod codes;
mod completing;
mod det;
mod encoding;
mod fault;
mod laws;
mod membership;

pub use codes::{accepting_codes, code};
pub use completing::complete;
pub use det::{Det, DetState, Move, complement};
pub use encoding::encode;
pub use fault::SolveFault;
pub use laws::{automata_stay_when_spaces_grow, words_are_those_of_runs};
