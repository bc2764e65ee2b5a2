//! Automata as rows.

ghost use Rattle.std.specs.Prelude.{◌≡◌};
ghost use Rattle.node_table.specs.Table.{Grows};

use crate::drawing::drawn;
use det_core::{Det, Move};
use node_table::{MkFault, Space};

/// Of each state whether it accepts, and its moves: a target, and the patterns of the letters.
pub(crate) type Rows<'a> = &'a [(bool, &'a [(u64, &'a str)])];

/// Whether these are the states of the automaton, with these moves in this order.
pub(crate) fn has_states(space: &mut Space, det: &Det, rows: Rows) -> Result<bool, MkFault> {
    for (state, (accepting, moves)) in rows.iter().enumerate() {
        let state = state as u64;
        if state >= det.states() || det.accepting(state) != *accepting {
            return Ok(false);
        }
        if !has_moves(space, det.moves(state), moves)? {
            return Ok(false);
        }
    }
    Ok(det.states() == rows.len() as u64)
}

fn has_moves(space: &mut Space, moves: &[Move], expected: &[(u64, &str)]) -> Result<bool, MkFault> {
    for (own, (target, patterns)) in moves.iter().zip(expected) {
        let guard = drawn(space, patterns)?;
        if own.target != *target || own.guard != guard {
            return Ok(false);
        }
    }
    Ok(moves.len() == expected.len())
}
