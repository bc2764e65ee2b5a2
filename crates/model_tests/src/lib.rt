//! Tests of names, of the types of the model, of printed automata, and of what is printed of faults.
#![tactic(auto)]

#[cfg(test)]
mod automata;
#[cfg(test)]
mod faults;
#[cfg(test)]
mod models;
#[cfg(test)]
mod variables;
