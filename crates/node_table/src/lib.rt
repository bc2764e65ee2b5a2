//! The node table of reduced ordered binary decision diagrams: one `Space` holds the nodes of all
//! diagrams over its levels, each node once, and a `Ref` names a node or one of the two constants.
#![tactic(auto)]

mod laws;
mod node;
mod space;

pub use laws::{equal_values_equal_refs, growth_is_transitive};
pub use node::{MAX_LEVELS, Ref};
pub use space::{MkFault, Space};
