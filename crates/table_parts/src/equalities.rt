//! The equalities that the entries of one table ask for. Each is built once, however many rows ask for it.

ghost use Rattle.std.specs.Prelude.{◌≡◌, ◌<◌, ◌⊎◌, ℕ, length, Err, IfOk, IfSome, OnOk, OnErr};
ghost use Rattle.name_table.specs.CodeBits.{bits_in};
ghost use Rattle.node_table.specs.Table.{Grows};
ghost use Rattle.bdd_ops.specs.Meaning.{StandsFor};
ghost use Rattle.mv_encoding.specs.Spots.{AreSpots, AreLaid, spot_at};
ghost use Rattle.table_parts.specs.declared.equalities.Pair.{Pair};

use indexmap::IndexMap;
use mv_encoding::{Coding, same_number};
use node_table::{MkFault, Ref, Space};
use std::alloc::Global;

/// An input column and a column that asks for its value, by their signals.
#[derive(Clone, Copy, PartialEq, Eq, Hash)]
pub(crate) struct Pair {
    pub input: u32,
    pub column: u32,
}

/// The equalities so far, by the pairs that they belong to.
#[derive(Drop)]
pub(crate) struct Equalities {
    built: IndexMap<Pair, Ref>,
}

impl Equalities {
    ghost use Rattle.table_parts.specs.Held.{IsHeld, AreRight, spell_same};

    /// No equalities yet. It takes no memory.
    pub(crate) fn new(alloc: Global) -> Equalities
        ensures { (pair : Pair) (r : ℕ) → IsHeld result pair r → ⊥ }
    {
        Equalities {
            built: IndexMap::new(alloc),
        }
    }

    /// The bits that spell the same number at the two signals.
    pub(crate) fn at(
        &mut self,
        space: &mut Space,
        signals: &[Coding],
        pair: &Pair,
    ) -> Result<Ref, MkFault>
        requires signals { AreSpots signals.now }
        requires laid { AreLaid space.old signals.now }
        requires known { (pair.now.input < length signals.now) × (pair.now.column < length signals.now) }
        requires bits { bits_in (spot_at signals.now pair.now.input).scope ≡ bits_in (spot_at signals.now pair.now.column).scope }
        requires right { AreRight signals.now space.old self.old }
        ensures ok { IfOk result (λ r. StandsFor space.new r (spell_same signals.now pair.now)) }
        ensures grows { Grows space.old space.new }
        ensures levels { space.new.levels ≡ space.old.levels }
        ensures full { result ≡ Err MkFault.Full → length space.new.nodes ≡ space.new.limit }
        ensures right { OnOk result (AreRight signals.now space.new self.new) }
    {
        if let Some(r) = self.find(pair) {
            return Ok(r);
        }
        let input = &signals[pair.input as usize];
        let column = &signals[pair.column as usize];
        let r = same_number(space, input, column)?;
        self.hold(pair, r)?;
        Ok(r)
    }

    // The equality of this pair, where it is held.
    fn find(&self, pair: &Pair) -> Option<Ref>
        ensures { IfSome result (λ r. IsHeld self.now pair.now r) }
    {
        match self.built.get(pair) {
            Some(r) => Some(*r),
            None => None,
        }
    }

    // Holds the equality of this pair, if there is memory.
    fn hold(&mut self, pair: &Pair, r: Ref) -> Result<(), MkFault>
        ensures held { (other : Pair) (s : ℕ) → IsHeld self.new other s → ((other ≡ pair.now) × (s ≡ r)) ⊎ IsHeld self.old other s }
        ensures memory { OnErr result (result ≡ Err MkFault.Memory) }
    {
        match self.built.insert(*pair, r) {
            Ok(_) => Ok(()),
            Err(_) => Err(MkFault::Memory),
        }
    }
}
