//! Tests of reading networks: of the passes over a text, of the networks and the problems that come of it, and of
//! the conditions on signals.
#![tactic(auto)]

#[cfg(test)]
mod conditions;
#[cfg(test)]
mod first_pass;
#[cfg(test)]
mod networks;
#[cfg(test)]
mod problems;
#[cfg(test)]
mod shown;
#[cfg(test)]
mod third_pass;
