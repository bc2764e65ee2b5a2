//! The parts of a relation.

ghost use Rattle.std.specs.Prelude.{◌≡◌, ◌<◌, ◌^◌, ◌-◌, ◌++◌, ◌∷◌, [], length, slice_get, OnOk, OnErr};
ghost use Rattle.node_table.specs.Table.{IsValid};

use node_table::{Ref, Space};
use std::alloc::{AllocError, Global};
use std::marker::Model;

/// Diagrams that stand for their conjunction, in the order in which they were added.
#[derive(Drop)]
pub struct Parts {
    refs: Vec<Ref>,
}

impl Model for Parts {
    ghost use Rattle.std.specs.Prelude.{ℕ, List, ◌<◌, ◌^◌, length};

    ghost Value = { List ℕ };

    ghost view = { λ p. p.refs.items };

    ghost invariant = { λ p. length p.refs.items < 2 ^ 32 };
}

impl Parts {
    /// No parts, which stand for the constant 1.
    pub fn new(alloc: Global) -> Parts
        ensures { result ≡ [] }
    {
        Parts {
            refs: Vec::new(alloc),
        }
    }

    /// Adds a part behind the others. Where memory runs out the parts stay as they were.
    pub fn add(&mut self, space: &Space, part: Ref) -> Result<(), AllocError>
        requires part { IsValid space.now part }
        requires few { length self.old < 2 ^ 32 - 1 }
        ensures ok { OnOk result (self.new ≡ self.old ++ part ∷ []) }
        ensures err { OnErr result (self.new ≡ self.old) }
    {
        self.refs.push(part)?;
        Ok(())
    }

    /// How many parts there are.
    pub fn len(&self) -> u32
        ensures { result ≡ length self.now }
    {
        self.refs.len() as u32
    }

    /// The part at place `k`, and none from `len()` on.
    pub fn at(&self, k: u32) -> Option<Ref>
        ensures { result ≡ slice_get self.now k }
    {
        self.refs.get(k as usize).copied()
    }

    /// The parts themselves.
    pub(crate) fn refs(&self) -> &[Ref]
        ensures refs { result.now ≡ self.now }
        ensures few { length self.now < 2 ^ 32 }
    {
        &self.refs
    }
}
