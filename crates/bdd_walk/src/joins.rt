//! The pieces of a node, from those of its two ends.

ghost use Rattle.std.specs.Prelude.{◌≡◌, ◌==◌, ◌<◌, ◌⊎◌, ◌++◌, [], ◌∷◌, ℕ, if◌then◌else◌, length, Some, Err, IfOk, OnOk, OnErr, All, nat_eq};
ghost use Rattle.node_table.specs.Table.{IsValid, Grows};
ghost use Rattle.indexmap.specs.IndexMap.{get, IsUnique};
ghost use Rattle.bdd_walk.specs.declared.joins.Ends.{Ends};
ghost use Rattle.bdd_walk.specs.Splitting.{guard_of, lo_end, hi_end, IsUnder, AreEnds, AreOver, IsJoin};

use crate::splits::Piece;
use indexmap::IndexMap;
use node_table::{MkFault, Ref, Space};
use std::alloc::Global;

/// The guards of one ref in the pieces of both ends, and `ZERO` where an end doesn't leave it.
#[derive(Clone, Copy)]
pub(crate) struct Ends {
    pub lo: Ref,
    pub hi: Ref,
}

/// The pieces of a node at this level: first those that the end for the bit 0 has, in their order, and then those that the
/// other end alone has. Takes one step for each piece of the two lists.
pub(crate) fn join(
    space: &mut Space,
    level: u32,
    lo: &[Piece],
    hi: &[Piece],
) -> Result<Vec<Piece>, MkFault>
    requires lo { All (IsUnder space.old level) lo.now }
    requires hi { All (IsUnder space.old level) hi.now }
    requires exists { level < space.old.levels }
    ensures ok { IfOk result (λ pieces. IsJoin space.new level lo.now hi.now pieces.items) }
    ensures grows { Grows space.old space.new }
    ensures levels { space.new.levels ≡ space.old.levels }
    ensures full { result ≡ Err MkFault.Full → length space.new.nodes ≡ space.new.limit }
{
    let alloc = space.allocator();
    let mut ends = low_ends(alloc, lo)?;
    add_high_ends(&mut ends, hi)?;
    nodes_over(space, level, &ends)
}

// The guards of the end for the bit 0, with none at the other end.
fn low_ends(alloc: Global, lo: &[Piece]) -> Result<IndexMap<Ref, Ends>, MkFault>
    requires { All (λ p. p.at ≡ 0 → ⊥) lo.now }
    ensures lo { IfOk result (λ ends. (r : ℕ) → lo_end ends.entries r ≡ guard_of lo.now r) }
    ensures hi { IfOk result (λ ends. (r : ℕ) → hi_end ends.entries r ≡ 0) }
    ensures some { IfOk result (λ ends. (r : ℕ) (e : Ends) → get nat_eq ends r ≡ Some e → e.lo ≡ 0 → ⊥) }
    ensures memory { OnErr result (result ≡ Err MkFault.Memory) }
{
    let mut ends = IndexMap::new(alloc);
    for piece in lo {
        let both = Ends {
            lo: piece.at,
            hi: Ref::ZERO,
        };
        put(&mut ends, piece.left, both)?;
    }
    Ok(ends)
}

// Puts the guards of the end for the bit 1 beside them.
fn add_high_ends(ends: &mut IndexMap<Ref, Ends>, hi: &[Piece]) -> Result<(), MkFault>
    requires hi { All (λ p. p.at ≡ 0 → ⊥) hi.now }
    requires none { (r : ℕ) → hi_end ends.old.entries r ≡ 0 }
    requires some { (r : ℕ) (e : Ends) → get nat_eq ends.old r ≡ Some e → e.lo ≡ 0 → ⊥ }
    ensures lo { OnOk result ((r : ℕ) → lo_end ends.new.entries r ≡ lo_end ends.old.entries r) }
    ensures hi { OnOk result ((r : ℕ) → hi_end ends.new.entries r ≡ guard_of hi.now r) }
    ensures some { OnOk result ((r : ℕ) (e : Ends) → get nat_eq ends.new r ≡ Some e → e.lo ≡ 0 → e.hi ≡ 0 → ⊥) }
    ensures memory { OnErr result (result ≡ Err MkFault.Memory) }
{
    for piece in hi {
        let both = Ends {
            lo: low_end(ends, piece.left),
            hi: piece.at,
        };
        put(ends, piece.left, both)?;
    }
    Ok(())
}

// The guard of this ref at the end for the bit 0.
fn low_end(ends: &IndexMap<Ref, Ends>, left: Ref) -> Ref
    ensures { result ≡ lo_end ends.now.entries left }
{
    match ends.get(&left) {
        Some(both) => both.lo,
        None => Ref::ZERO,
    }
}

// Puts guards beside a ref, if there is memory.
fn put(ends: &mut IndexMap<Ref, Ends>, left: Ref, both: Ends) -> Result<(), MkFault>
    ensures lo { OnOk result ((r : ℕ) → lo_end ends.new.entries r ≡ (if left == r then both.lo else lo_end ends.old.entries r)) }
    ensures hi { OnOk result ((r : ℕ) → hi_end ends.new.entries r ≡ (if left == r then both.hi else hi_end ends.old.entries r)) }
    ensures put { OnOk result ((r : ℕ) (e : Ends) → get nat_eq ends.new r ≡ Some e → (e ≡ both) ⊎ (get nat_eq ends.old r ≡ Some e)) }
    ensures memory { OnErr result (result ≡ Err MkFault.Memory) }
{
    match ends.insert(left, both) {
        Ok(_) => Ok(()),
        Err(_) => Err(MkFault::Memory),
    }
}

// A piece for each ref, with the node over its guards.
fn nodes_over(
    space: &mut Space,
    level: u32,
    all: &IndexMap<Ref, Ends>,
) -> Result<Vec<Piece>, MkFault>
    requires { (r : ℕ) (e : Ends) → get nat_eq all.now r ≡ Some e → AreEnds space.old level e }
    ensures ok { IfOk result (λ pieces. AreOver space.new level all.now.entries pieces.items) }
    ensures every { IfOk result (λ pieces. length pieces.items ≡ length all.now.entries) }
    ensures unique { IsUnique nat_eq all.now }
    ensures grows { Grows space.old space.new }
    ensures levels { space.new.levels ≡ space.old.levels }
    ensures full { result ≡ Err MkFault.Full → length space.new.nodes ≡ space.new.limit }
{
    // `len` is called for its clause that the refs differ.
    let _len = all.len();
    let mut pieces = Vec::new(space.allocator());
    while let Some((left, both)) = all.get_index(pieces.len()) {
        let at = space.mk(level, both.lo, both.hi)?;
        push(&mut pieces, Piece { left: *left, at })?;
    }
    Ok(pieces)
}

// Puts one more piece, if there is memory.
fn push(pieces: &mut Vec<Piece>, piece: Piece) -> Result<(), MkFault>
    ensures pieces { OnOk result (pieces.new.items ≡ pieces.old.items ++ piece ∷ []) }
    ensures memory { OnErr result (result ≡ Err MkFault.Memory) }
{
    match pieces.push(piece) {
        Ok(()) => Ok(()),
        Err(_) => Err(MkFault::Memory),
    }
}
