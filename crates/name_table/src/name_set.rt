//! Different names in the order in which they were added, each found by an order of the names.

ghost use Rattle.std.specs.Prelude.{◌≡◌, ◌++◌, ◌∷◌, ℕ, List, [], length, map, not, true, false, slice_get, IfOk, OnOk, OnErr};
ghost use Rattle.std.specs.Option.{option_copied};
ghost use Rattle.name_table.specs.Variables.{is_in, place_of, are_different, are_same, with_name};

use std::alloc::{AllocError, Global};
use std::collections::BTreeMap;
use std::marker::Model;

/// A set of names, seen as the list of them. A name is looked up in an ordered map of the names to their places, so
/// that no names cost more than others.
#[derive(Drop)]
pub struct NameSet {
    names: Vec<Vec<u8>>,
    places: BTreeMap<Vec<u8>, usize>,
}

impl Model for NameSet {
    ghost use Rattle.std.specs.Prelude.{◌≡◌, ℕ, List, map, true};
    ghost use Rattle.std.specs.BTreeMap.{get_by};
    ghost use Rattle.std.specs.Cmp.Lexicographic.{slice_cmp};
    ghost use Rattle.std.specs.Ordering.{nat_cmp};
    ghost use Rattle.name_table.specs.Variables.{are_different, place_of};

    ghost Value = { List (List ℕ) };

    ghost view = { λ s. map (λ n. n.items) s.names.items };

    ghost invariant = { λ s. (are_different (map (λ n. n.items) s.names.items) ≡ true)
        × ((name : List ℕ) → get_by (λ key. slice_cmp nat_cmp name key.items) s.places ≡ place_of (map (λ n. n.items) s.names.items) name) };
}

impl NameSet {
    /// A set without names.
    pub fn new(alloc: Global) -> NameSet
        ensures { result ≡ [] }
    {
        NameSet {
            names: Vec::new(alloc),
            places: BTreeMap::new(alloc),
        }
    }

    /// How many names there are.
    pub fn len(&self) -> usize
        ensures len { result ≡ length self.now }
        ensures different { are_different self.now ≡ true }
    {
        self.names.len()
    }

    /// Puts a name at the end, unless it is there, and says if it is new.
    pub fn add(&mut self, name: Vec<u8>) -> Result<bool, AllocError>
        ensures is_new { IfOk result (λ is_new. is_new ≡ not (is_in self.old name.items)) }
        ensures added { OnOk result (self.new ≡ with_name self.old name.items) }
        ensures err { OnErr result (self.new ≡ self.old) }
    {
        if self.has(name.as_slice()) {
            return Ok(false);
        }
        self.push_new(name)?;
        Ok(true)
    }

    // Whether the name is there.
    fn has(&self, name: &[u8]) -> bool
        ensures { result ≡ is_in self.now name.now }
    {
        self.find(name).is_some()
    }

    fn push_new(&mut self, name: Vec<u8>) -> Result<(), AllocError>
        requires { is_in self.old name.items ≡ false }
        ensures ok { OnOk result (self.new ≡ self.old ++ name.items ∷ []) }
        ensures err { OnErr result (self.new ≡ self.old) }
    {
        let alloc = *self.names.allocator();
        let key = name.as_slice().to_vec(alloc)?;
        let place = self.names.len();
        self.names.push(name)?;
        match self.places.insert(key, place) {
            Ok(_) => Ok(()),
            Err(_) => {
                self.names.pop();
                Err(AllocError)
            }
        }
    }

    /// The name at a place.
    pub fn get(&self, place: usize) -> Option<&[u8]>
        ensures { option_copied result ≡ slice_get self.now place }
    {
        let name = self.names.get(place)?;
        Some(name.as_slice())
    }

    /// The place of a name.
    pub fn find(&self, name: &[u8]) -> Option<usize>
        ensures { result ≡ place_of self.now name.now }
    {
        self.places.get(name).copied()
    }

    /// Whether both sets have the same names in the same order.
    pub fn is_same(&self, other: &NameSet) -> bool
        ensures { result ≡ are_same self.now other.now }
    {
        self.names.as_slice() == other.names.as_slice()
    }
}
