//! What was split already within one call, so that no pair is split twice.

ghost use Rattle.std.specs.Prelude.{◌≡◌, ◌⊎◌, ◌<◌, ℕ, length, Err, IfOk, IfSome, OnErr};
ghost use Rattle.bdd_walk.specs.declared.pairs.Pair.{Pair};

use crate::pairs::Pair;
use crate::splits::Piece;
use indexmap::IndexMap;
use node_table::MkFault;
use std::alloc::Global;

/// The lists of pieces so far, and the place of the list of each pair.
#[derive(Drop)]
pub(crate) struct SplitMemo {
    places: IndexMap<Pair, usize>,
    lists: Vec<Vec<Piece>>,
}

impl SplitMemo {
    ghost use Rattle.bdd_walk.specs.Splitting.{IsNoted, list_at, Keeps};

    /// A memo without lists. It takes no memory yet.
    pub(crate) fn new(alloc: Global) -> SplitMemo
        ensures { (pair : Pair) (place : ℕ) → IsNoted result pair place → ⊥ }
    {
        SplitMemo {
            places: IndexMap::new(alloc),
            lists: Vec::new(alloc),
        }
    }

    /// The place of the list of this pair, where it is held.
    pub(crate) fn recall(&self, pair: &Pair) -> Option<usize>
        ensures { IfSome result (λ place. IsNoted self.now pair.now place) }
    {
        match self.places.get(pair) {
            Some(place) => Some(*place),
            None => None,
        }
    }

    /// The list at this place.
    pub(crate) fn list(&self, place: usize) -> &[Piece]
        requires { place < length self.now.lists.items }
        ensures { result.now ≡ list_at self.now place }
    {
        &self.lists[place]
    }

    /// Holds the list of this pair, if there is memory, and answers its place.
    pub(crate) fn note(&mut self, pair: &Pair, pieces: Vec<Piece>) -> Result<usize, MkFault>
        ensures held { IfOk result (λ place. place < length self.new.lists.items) }
        ensures list { IfOk result (λ place. list_at self.new place ≡ pieces.items) }
        ensures kept { Keeps self.old self.new }
        ensures noted { IfOk result (λ place. (p : Pair) (k : ℕ) → IsNoted self.new p k → ((p ≡ pair.now) × (k ≡ place)) ⊎ IsNoted self.old p k) }
        ensures memory { OnErr result (result ≡ Err MkFault.Memory) }
    {
        let place = self.lists.len();
        if self.lists.push(pieces).is_err() {
            return Err(MkFault::Memory);
        }
        match self.places.insert(*pair, place) {
            Ok(_) => Ok(place),
            Err(_) => Err(MkFault::Memory),
        }
    }
}
