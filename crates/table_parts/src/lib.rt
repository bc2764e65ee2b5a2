//! Tables of networks as diagrams: the set of the bits at which a table holds, over a coding for each signal.
#![tactic(auto)]

mod entries;
mod equalities;
mod part;
mod rows;

pub use part::table_part;
