//! Tests of the largest solution of a problem, and of its text.
#![tactic(auto)]

#[cfg(test)]
mod letters;
#[cfg(test)]
mod wires;
