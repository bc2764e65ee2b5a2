//! Tests of the whole program, over shelves and sinks in memory with ample memory.
#![tactic(auto)]

#[cfg(test)]
mod runs;
#[cfg(test)]
mod solving;
#[cfg(test)]
mod texts;
