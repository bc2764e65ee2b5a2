//! The sets of states that were found, each once.

ghost use Rattle.std.specs.Prelude.{◌≡◌, ◌<◌, ◌≤◌, ℕ, length, slice_get, slice_index, [], IfOk, OnErr};
ghost use Rattle.std.specs.List.{AllPairs};
ghost use Rattle.subset_build.specs.Tables.{IsPlaced};

use indexmap::IndexSet;
use node_table::Ref;
use std::alloc::{AllocError, Global};
use std::marker::Model;

/// Different refs, in the order in which they were found. Two sets of states are equal exactly where their refs are.
#[derive(Drop)]
pub(crate) struct Found {
    refs: IndexSet<Ref>,
}

impl Model for Found {
    ghost use Rattle.std.specs.Prelude.{◌≡◌, ℕ, List};
    ghost use Rattle.std.specs.List.{AllPairs};

    ghost Value = { List ℕ };

    ghost view = { λ f. f.refs.keys };
}

impl Found {
    /// No sets.
    pub(crate) fn new(alloc: Global) -> Found
        ensures { result ≡ [] }
    {
        Found {
            refs: IndexSet::new(alloc),
        }
    }

    /// How many sets there are.
    pub(crate) fn len(&self) -> u64
        ensures len { result ≡ length self.now }
        ensures different { AllPairs (λ r s. r ≡ s → ⊥) self.now }
    {
        self.refs.len() as u64
    }

    /// The set with this number.
    pub(crate) fn at(&self, k: u64) -> Option<Ref>
        ensures at { result ≡ slice_get self.now k }
        ensures different { AllPairs (λ r s. r ≡ s → ⊥) self.now }
    {
        // The refs are different.
        let _len = self.refs.len();
        self.refs.get_index(k as usize).copied()
    }

    /// The number of a set, which is put behind the others where it is new.
    pub(crate) fn number_of(&mut self, set: Ref) -> Result<u64, AllocError>
        ensures ok { IfOk result (IsPlaced self.old self.new set) }
        ensures err { OnErr result (self.new ≡ self.old) }
    {
        match self.refs.insert_full(set) {
            Ok((place, _)) => Ok(place as u64),
            Err(_) => Err(AllocError),
        }
    }
}
