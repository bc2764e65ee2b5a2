//! Tests of the codings of letters.
#![tactic(auto)]

#[cfg(test)]
mod codings;
