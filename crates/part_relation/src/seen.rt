//! What a walk over diagrams has looked at, so that it looks at no node twice.

ghost use Rattle.std.specs.Prelude.{◌≡◌, ◌⊎◌, ◌↔◌, ℕ, IsTrue, OnOk};

use indexmap::IndexSet;
use node_table::Ref;
use std::alloc::{AllocError, Global};

/// The diagrams that were looked at already.
#[derive(Drop)]
pub(crate) struct Seen {
    refs: IndexSet<Ref>,
}

impl Seen {
    ghost use Rattle.part_relation.specs.Supports.{IsSeen};

    /// Nothing was looked at yet. It takes no memory.
    pub(crate) fn new(alloc: Global) -> Seen
        ensures { (r : ℕ) → IsSeen result r → ⊥ }
    {
        Seen {
            refs: IndexSet::new(alloc),
        }
    }

    /// Whether the diagram was looked at.
    pub(crate) fn has(&self, r: Ref) -> bool
        ensures { IsTrue result ↔ IsSeen self.now r }
    {
        self.refs.contains(&r)
    }

    /// Keeps that the diagram was looked at.
    pub(crate) fn note(&mut self, r: Ref) -> Result<(), AllocError>
        ensures { OnOk result ((s : ℕ) → IsSeen self.new s → (s ≡ r) ⊎ IsSeen self.old s) }
    {
        self.refs.insert(r)?;
        Ok(())
    }
}
