//! Tests of the diagrams: of the node table, the operations, the walks and the parts.
#![tactic(auto)]

#[cfg(test)]
mod drawing;
#[cfg(test)]
mod literals;
#[cfg(test)]
mod nodes;
#[cfg(test)]
mod operations;
#[cfg(test)]
mod parts;
#[cfg(test)]
mod walks;
