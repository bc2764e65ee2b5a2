//! The operations on reduced ordered binary decision diagrams (Bryant 1986): each takes refs of a `Space` and answers
//! the ref of its result there.
//!
//! An operation goes down its diagrams side by side, no deeper than they have levels, and works hardly anything out twice
//! within one call. It answers `Full` where a new node was needed and the space was full, and `Memory` where there was none for
//! a node or for what the call remembers. After either each valid ref is valid still, and has its old value.
#![tactic(auto)]

mod choice;
mod code;
mod connectives;
mod level_map;
mod level_set;
mod memo;
mod quantifiers;
mod renaming;
mod steps;

pub use code::{CODE_BITS, Code};
pub use connectives::{and, ite, not, or};
pub use level_map::LevelMap;
pub use level_set::LevelSet;
pub use quantifiers::{and_exists, exists};
pub use renaming::rename;
