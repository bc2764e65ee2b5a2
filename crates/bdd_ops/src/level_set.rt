//! A set of levels.

ghost use Rattle.std.specs.Prelude.{◌≡◌, ◌<◌, ◌≤◌, ◌^◌, ◌↔◌, ℕ, length, slice_get, IsTrue, IfOk, true};
ghost use Rattle.std.specs.List.Sorted.{IsStrictlyIncreasing};
ghost use Rattle.bdd_ops.specs.Levels.{is_in, IsSetOf};

use std::alloc::{AllocError, Global};
use std::marker::Model;

/// Levels in rising order, each once.
#[derive(Drop)]
pub struct LevelSet {
    levels: Vec<u32>,
}

impl Model for LevelSet {
    ghost use Rattle.std.specs.Prelude.{ℕ, List, ◌<◌, ◌^◌, length};
    ghost use Rattle.std.specs.List.Sorted.{IsStrictlyIncreasing};

    ghost Value = { List ℕ };

    ghost view = { λ s. s.levels.items };

    ghost invariant = { λ s. IsStrictlyIncreasing s.levels.items × (length s.levels.items < 2 ^ 32) };
}

impl LevelSet {
    /// The set of these levels, which may come in any order and more than once. It is sorted once.
    pub fn of(alloc: Global, levels: &[u32]) -> Result<LevelSet, AllocError>
        requires { length levels.now < 2 ^ 32 }
        ensures { IfOk result (IsSetOf levels.now) }
    {
        let mut sorted = Vec::from_slice(alloc, levels)?;
        sorted.sort_unstable();
        sorted.dedup();
        Ok(LevelSet { levels: sorted })
    }

    /// How many levels there are.
    pub fn len(&self) -> u32
        ensures len { result ≡ length self.now }
        ensures rises { IsStrictlyIncreasing self.now }
    {
        self.levels.len() as u32
    }

    /// The level at place `k`, the topmost at place 0, and none from `len()` on.
    pub fn at(&self, k: u32) -> Option<u32>
        ensures { result ≡ slice_get self.now k }
    {
        match self.levels.get(k as usize) {
            Some(level) => Some(*level),
            None => None,
        }
    }

    /// Whether the level is one of these, by binary search.
    pub(crate) fn contains(&self, level: u32) -> bool
        ensures { result ≡ is_in self.now level }
    {
        self.levels.binary_search(&level).is_ok()
    }

    /// Whether this level or one below it is one of these.
    pub(crate) fn reaches(&self, level: u32) -> bool
        ensures { IsTrue result ↔ ((k : ℕ) × (is_in self.now k ≡ true) × (level ≤ k)) }
    {
        match self.levels.last() {
            Some(lowest) => level <= *lowest,
            None => false,
        }
    }
}
