//! What is left of a diagram where its first levels are fixed, with the bits there that leave it.

ghost use Rattle.std.specs.Prelude.{◌≡◌, ◌≤◌, ◌<◌, ◌⊎◌, length, Err, IfOk, OnOk, OnErr, IsTrue, IsFalse, All};
ghost use Rattle.node_table.specs.Table.{top_of, IsValid, Grows};
ghost use Rattle.bdd_walk.specs.Splits.{AsksAbove, IsSplit};
ghost use Rattle.bdd_walk.specs.Splitting.{AreBothValid, IsGathered, IsPlaced, AreRight, Keeps};

use crate::joins::join;
use crate::pairs::{Pair, cofactors, low};
use crate::split_memo::SplitMemo;
use node_table::{MkFault, Ref, Space};

/// What a diagram leaves where the bits at its first levels are fixed, and the bits there that leave it.
#[derive(Clone, Copy)]
pub struct Piece {
    /// What is left.
    pub left: Ref,

    /// The bits that leave it, as a diagram.
    pub at: Ref,
}

/// The different refs that `f` leaves where all levels above `level` are fixed to bits of `within`, each with all of these
/// bits, in the order of the least bits that leave them: level 0 decides first, and 0 comes before 1. Goes through each pair
/// of a node of `f` and one of `within` above the level once, in one step for each piece that the two ends leave.
pub fn split(space: &mut Space, f: Ref, within: Ref, level: u32) -> Result<Vec<Piece>, MkFault>
    requires f { IsValid space.old f }
    requires within { IsValid space.old within }
    requires above { AsksAbove space.old level within }
    requires exists { level ≤ space.old.levels }
    ensures ok { IfOk result (λ pieces. IsSplit space.new level f within pieces.items) }
    ensures guards { IfOk result (λ pieces. All (λ p. AsksAbove space.new level p.at) pieces.items) }
    ensures grows { Grows space.old space.new }
    ensures levels { space.new.levels ≡ space.old.levels }
    ensures full { result ≡ Err MkFault.Full → length space.new.nodes ≡ space.new.limit }
{
    let alloc = space.allocator();
    let mut memo = SplitMemo::new(alloc);
    let pair = Pair { f, within };
    let place = gather(space, &mut memo, &pair, level)?;
    match Vec::from_slice(alloc, memo.list(place)) {
        Ok(pieces) => Ok(pieces),
        Err(_) => Err(MkFault::Memory),
    }
}

// The place of the list of the pieces of a pair. `memo` has the lists so far.
fn gather(
    space: &mut Space,
    memo: &mut SplitMemo,
    pair: &Pair,
    level: u32,
) -> Result<usize, MkFault>
    requires valid { AreBothValid space.old pair.now }
    requires exists { level ≤ space.old.levels }
    requires memo { AreRight space.old level memo.old }
    ensures ok { IfOk result (λ place. IsPlaced space.new level memo.new pair.now place) }
    ensures memo { OnOk result (AreRight space.new level memo.new) }
    ensures kept { OnOk result (Keeps memo.old memo.new) }
    ensures grows { Grows space.old space.new }
    ensures levels { space.new.levels ≡ space.old.levels }
    ensures full { result ≡ Err MkFault.Full → length space.new.nodes ≡ space.new.limit }
{
    if let Some(place) = memo.recall(pair) {
        return Ok(place);
    }
    if is_whole(space, pair, level) {
        let pieces = one_piece(space, pair, level)?;
        return memo.note(pair, pieces);
    }
    let own = low(space, pair);
    let pair0 = cofactors(space, own, pair, false);
    let pair1 = cofactors(space, own, pair, true);
    let lo = gather(space, memo, &pair0, level)?;
    let hi = gather(space, memo, &pair1, level)?;
    let pieces = join(space, own, memo.list(lo), memo.list(hi))?;
    memo.note(pair, pieces)
}

// Whether the bits above the level leave one ref at most: `f` itself.
fn is_whole(space: &Space, pair: &Pair, level: u32) -> bool
    requires valid { AreBothValid space.now pair.now }
    requires exists { level ≤ space.now.levels }
    ensures whole { IsTrue result → (pair.now.within ≡ 0) ⊎ (level ≤ top_of space.now pair.now.f) }
    ensures parted { IsFalse result → (top_of space.now pair.now.f < level) × (top_of space.now pair.now.f < space.now.levels) }
{
    if pair.within == space.zero() {
        return true;
    }
    match space.level(pair.f) {
        Some(own) => own >= level,
        None => true,
    }
}

// The pieces of such a pair: none where `within` is ZERO, and else one.
fn one_piece(space: &Space, pair: &Pair, level: u32) -> Result<Vec<Piece>, MkFault>
    requires valid { AreBothValid space.now pair.now }
    requires whole { (pair.now.within ≡ 0) ⊎ (level ≤ top_of space.now pair.now.f) }
    ensures ok { IfOk result (λ pieces. IsGathered space.now level pair.now pieces.items) }
    ensures memory { OnErr result (result ≡ Err MkFault.Memory) }
{
    let alloc = space.allocator();
    let zero = space.zero();
    if pair.within == zero {
        return Ok(Vec::new(alloc));
    }
    let piece = Piece {
        left: pair.f,
        at: pair.within,
    };
    match Vec::from_slice(alloc, &[piece]) {
        Ok(pieces) => Ok(pieces),
        Err(_) => Err(MkFault::Memory),
    }
}
