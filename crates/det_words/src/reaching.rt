//! The states that are reached from state 0, breadth first.

ghost use Rattle.std.specs.Prelude.{◌≡◌, Bool, true, length, IfOk, OnOk, MatchBool};
ghost use Rattle.node_table.specs.Table.{Bits};
ghost use Rattle.det_core.specs.Automata.{BitWord, AreLetters, has_word, MeetsRule};
ghost use Rattle.det_words.specs.Reaching.{ArePut};

use crate::reached::Reached;
use det_core::{Det, Move};
use node_table::Space;
use std::alloc::AllocError;

/// Whether the automaton has a word. It goes through the states that are reached from state 0, breadth first, each move once,
/// until one accepts.
pub fn has_some_word(space: &Space, det: &Det) -> Result<bool, AllocError>
    requires { (letters : Bits → Bool) × MeetsRule space.now letters det.now }
    ensures { IfOk result (λ some. (letters : Bits → Bool) → MeetsRule space.now letters det.now → MatchBool some ((word : BitWord) × AreLetters letters word × (has_word space.now det.now word ≡ true)) ((word : BitWord) → has_word space.now det.now word ≡ true → ⊥)) }
{
    // There is a state 0.
    let _count = det.states();
    let mut reached = Reached::new(space.allocator());
    reached.place_of(0)?;
    let mut place = 0;
    while let Some(state) = reached.at(place) {
        if det.accepting(state) {
            return Ok(true);
        }
        put_targets(det.moves(state), &mut reached)?;
        place += 1;
    }
    Ok(false)
}

// Puts the targets of moves, those that are new, behind the states reached so far.
fn put_targets(moves: &[Move], reached: &mut Reached) -> Result<(), AllocError>
    ensures { OnOk result (ArePut reached.old reached.new moves.now (length moves.now)) }
{
    for m in moves {
        reached.place_of(m.target)?;
    }
    Ok(())
}
