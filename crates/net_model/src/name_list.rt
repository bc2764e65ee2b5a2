//! Names in the order in which they were given.

ghost use Rattle.std.specs.Prelude.{◌≡◌, ◌++◌, ℕ, List, [], ◌∷◌, length, map, slice_get, OnOk, OnErr};
ghost use Rattle.std.specs.Option.{option_copied};

use std::alloc::{AllocError, Global};
use std::marker::Model;

/// A list of names, seen as the list of their bytes. A name may stand in it twice.
#[derive(Drop)]
pub struct NameList {
    names: Vec<Vec<u8>>,
}

impl Model for NameList {
    ghost Value = { List (List ℕ) };

    ghost view = { λ l. map (λ n. n.items) l.names.items };
}

impl NameList {
    /// A list without names.
    pub fn new(alloc: Global) -> NameList
        ensures { result ≡ [] }
    {
        NameList {
            names: Vec::new(alloc),
        }
    }

    /// Puts a name at the end.
    pub fn push(&mut self, name: &[u8]) -> Result<(), AllocError>
        ensures ok { OnOk result (self.new ≡ self.old ++ name.now ∷ []) }
        ensures err { OnErr result (self.new ≡ self.old) }
    {
        let name = name.to_vec(*self.names.allocator())?;
        self.names.push(name)?;
        Ok(())
    }

    // The names as they are kept.
    pub fn names(&self) -> &[Vec<u8>]
        ensures { map (λ n. n.items) result.now ≡ self.now }
    {
        self.names.as_slice()
    }

    /// How many names there are.
    pub fn len(&self) -> u64
        ensures { result ≡ length self.now }
    {
        self.names.len() as u64
    }

    /// The name at a place, counted from 0; there is none from the length on.
    pub fn at(&self, k: u64) -> Option<&[u8]>
        ensures { option_copied result ≡ slice_get self.now k }
    {
        let name = self.names.get(usize::try_from(k).ok()?)?;
        Some(name.as_slice())
    }
}
