//! The states that were reached, each once.

ghost use Rattle.std.specs.Prelude.{◌≡◌, ◌<◌, ◌^◌, length, slice_get, [], IfOk};
ghost use Rattle.subset_build.specs.Tables.{IsPlaced};

use indexmap::IndexSet;
use std::alloc::{AllocError, Global};
use std::marker::Model;

/// The numbers of different states, in the order in which they were reached.
#[derive(Drop)]
pub(crate) struct Reached {
    states: IndexSet<u64>,
}

impl Model for Reached {
    ghost use Rattle.std.specs.Prelude.{ℕ, List};

    ghost Value = { List ℕ };

    ghost view = { λ r. r.states.keys };
}

impl Reached {
    /// No states.
    pub(crate) fn new(alloc: Global) -> Reached
        ensures { result ≡ [] }
    {
        Reached {
            states: IndexSet::new(alloc),
        }
    }

    /// The state at a place.
    pub(crate) fn at(&self, place: u64) -> Option<u64>
        ensures at { result ≡ slice_get self.now place }
        ensures few { length self.now < 2 ^ 63 }
    {
        // There are few.
        let _count = self.states.len();
        self.states.get_index(place as usize).copied()
    }

    /// The place of a state, which is put behind the others where it is new.
    pub(crate) fn place_of(&mut self, state: u64) -> Result<u64, AllocError>
        ensures { IfOk result (IsPlaced self.old self.new state) }
    {
        match self.states.insert_full(state) {
            Ok((place, _)) => Ok(place as u64),
            Err(_) => Err(AllocError),
        }
    }
}
