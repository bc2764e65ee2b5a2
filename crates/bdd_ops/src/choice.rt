//! Three diagrams that an operation goes down side by side.

use node_table::{Ref, Space};

/// Three diagrams: `g` where `f` is 1, and `h` where it is 0.
#[derive(Clone, Copy, PartialEq, Eq, Hash)]
pub(crate) struct Choice {
    pub f: Ref,
    pub g: Ref,
    pub h: Ref,
}
