//! The subset construction on diagrams (Rabin, Scott 1959): the deterministic automaton with the words of a relation.
#![tactic(auto)]

mod determinising;
mod found;
mod images;
mod joining;
mod moves;
mod prepared;

pub use determinising::determinise;
