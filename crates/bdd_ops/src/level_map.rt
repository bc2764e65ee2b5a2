//! A map from levels to levels.

ghost use Rattle.std.specs.Prelude.{◌≡◌, ◌<◌, ◌^◌, ℕ, length, slice_get, IfOk, slice_index_or, IfSome, IfNone, false};
ghost use Rattle.bdd_ops.specs.Levels.{is_in, sources, target_or, IsRisingMap};

use std::alloc::{AllocError, Global};
use std::marker::Model;

/// Pairs of levels: each takes the first to the second.
#[derive(Drop)]
pub struct LevelMap {
    pairs: Vec<(u32, u32)>,
}

impl Model for LevelMap {
    ghost use Rattle.std.specs.Prelude.{ℕ, List, ◌<◌, ◌^◌, length};

    ghost Value = { List (ℕ × ℕ) };

    ghost view = { λ m. m.pairs.items };

    ghost invariant = { λ m. length m.pairs.items < 2 ^ 32 };
}

impl LevelMap {
    /// The map with these pairs, in this order.
    pub fn of(alloc: Global, pairs: &[(u32, u32)]) -> Result<LevelMap, AllocError>
        requires { length pairs.now < 2 ^ 32 }
        ensures { IfOk result (λ map. map ≡ pairs.now) }
    {
        let pairs = Vec::from_slice(alloc, pairs)?;
        Ok(LevelMap { pairs })
    }

    /// How many pairs there are.
    pub fn len(&self) -> u32
        ensures { result ≡ length self.now }
    {
        self.pairs.len() as u32
    }

    /// The pair at place `k`, and none from `len()` on.
    pub fn at(&self, k: u32) -> Option<(u32, u32)>
        ensures { result ≡ slice_get self.now k }
    {
        match self.pairs.get(k as usize) {
            Some(pair) => Some(*pair),
            None => None,
        }
    }

    /// Where a rising map takes this level, by binary search.
    pub(crate) fn target(&self, level: u32) -> Option<u32>
        requires { IsRisingMap self.now }
        ensures found { IfSome result (λ to. (other : ℕ) → target_or other self.now level ≡ to) }
        ensures none { IfNone result (is_in (sources self.now) level ≡ false) }
    {
        match self.place(level) {
            Some(place) => match self.pairs.get(place) {
                Some(pair) => Some(pair.1),
                None => None,
            },
            None => None,
        }
    }

    // The place of the pair with this source.
    fn place(&self, level: u32) -> Option<usize>
        requires { IsRisingMap self.now }
        ensures found { IfSome result (λ i. (i < length self.now) × ((other : ℕ) → target_or other self.now level ≡ (slice_index_or self.now i (0, 0)).1)) }
        ensures none { IfNone result (is_in (sources self.now) level ≡ false) }
    {
        match self.pairs.binary_search_by_key(&level, |pair| pair.0) {
            Ok(place) => Some(place),
            Err(_) => None,
        }
    }
}
