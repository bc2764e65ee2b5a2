//! Tests of automata on diagrams: of what a diagram leaves, of automata, and of the subset construction.
#![tactic(auto)]

#[cfg(test)]
mod automata;
#[cfg(test)]
mod codes;
#[cfg(test)]
mod drawing;
#[cfg(test)]
mod shown;
#[cfg(test)]
mod splits;
#[cfg(test)]
mod subsets;
