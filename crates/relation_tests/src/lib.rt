//! Tests of networks as relations.
#![tactic(auto)]

#[cfg(test)]
mod frames;
#[cfg(test)]
mod shown;
#[cfg(test)]
mod sizes;
#[cfg(test)]
mod steps;
