//! The moves of a state, by the image of its set.

ghost use Rattle.std.specs.Prelude.{◌≡◌, ◌≤◌, ◌++◌, ◌∷◌, [], length, Err, IfOk, OnOk, OnErr};
ghost use Rattle.node_table.specs.Table.{value_at, IsValid, Grows};
ghost use Rattle.bdd_walk.specs.Splits.{AsksAbove};
ghost use Rattle.subset_build.specs.Subsets.{AreMovesOf};
ghost use Rattle.subset_build.specs.Tables.{Extends, AreLeft};

use crate::found::Found;
use bdd_walk::split;
use det_core::Move;
use node_table::{MkFault, Ref, Space};

/// The moves to what the image leaves at its letters, in the order of the least of them. Sets that are new are put to those
/// found so far.
pub(crate) fn moves_of(
    space: &mut Space,
    image: Ref,
    valid: Ref,
    level: u32,
    sets: &mut Found,
) -> Result<Vec<Move>, MkFault>
    requires image { IsValid space.old image }
    requires valid { IsValid space.old valid }
    requires above { AsksAbove space.old level valid }
    requires exists { level ≤ space.old.levels }
    ensures ok { IfOk result (λ moves. AreMovesOf space.new (value_at space.old valid) level image sets.new moves.items) }
    ensures extends { Extends sets.old sets.new }
    ensures came { AreLeft space.new (value_at space.old valid) level image sets.old sets.new }
    ensures grows { Grows space.old space.new }
    ensures levels { space.new.levels ≡ space.old.levels }
    ensures full { result ≡ Err MkFault.Full → length space.new.nodes ≡ space.new.limit }
{
    let pieces = split(space, image, valid, level)?;
    let mut moves = Vec::new(space.allocator());
    for piece in &pieces {
        let target = match sets.number_of(piece.left) {
            Ok(target) => target,
            Err(_) => return Err(MkFault::Memory),
        };
        add(&mut moves, piece.at, target)?;
    }
    Ok(moves)
}

// Puts a move behind the others.
fn add(moves: &mut Vec<Move>, guard: Ref, target: u64) -> Result<(), MkFault>
    ensures ok { OnOk result (moves.new.items ≡ moves.old.items ++ record { guard = guard; target = target } ∷ []) }
    ensures err { OnErr result (result ≡ Err MkFault.Memory) }
{
    match moves.push(Move { guard, target }) {
        Ok(()) => Ok(()),
        Err(_) => Err(MkFault::Memory),
    }
}
