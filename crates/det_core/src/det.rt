//! Deterministic automata over letters that are sets of bits.

ghost use Rattle.std.specs.Prelude.{◌≡◌, ◌<◌, ℕ, Bool, not, length, map, All};
ghost use Rattle.node_table.specs.Table.{Bits, Table};
ghost use Rattle.det_core.specs.Automata.{states_of, state_at, turned, TargetsBelow, IsDet, IsComplete, BitWord, AreLetters, has_word};

use node_table::Ref;
use std::marker::Model;

/// A move: its letters, as a diagram, and the number of the state that it leads to.
#[derive(Clone, Copy)]
pub struct Move {
    pub guard: Ref,
    pub target: u64,
}

/// A state: whether it accepts, and its moves.
#[derive(Drop)]
pub struct DetState {
    pub accepting: bool,
    pub moves: Vec<Move>,
}

/// A deterministic automaton. It starts in state 0. The guards of a state are disjoint sets of letters, none of them is
/// empty, and at most one move goes to each target; a letter that no guard has leads nowhere. Which bits are letters a call
/// says that takes the automaton beside a space.
#[derive(Drop)]
pub struct Det {
    held: Vec<DetState>,
}

impl Model for Det {
    ghost use Rattle.std.specs.Prelude.{List};
    ghost use Rattle.det_core.specs.Automata.{State, states_of, IsDet};

    ghost Value = { List State };

    ghost view = { λ d. states_of d.held.items };

    ghost invariant = { λ d. IsDet (states_of d.held.items) };
}

impl Det {
    /// The automaton with these states in this order.
    pub fn of(states: Vec<DetState>) -> Det
        requires { IsDet (states_of states.items) }
        ensures { result ≡ states_of states.items }
    {
        Det { held: states }
    }

    /// How many states there are.
    pub fn states(&self) -> u64
        ensures states { result ≡ length self.now }
        ensures det { IsDet self.now }
    {
        self.held.len() as u64
    }

    /// Whether a state accepts.
    pub fn accepting(&self, state: u64) -> bool
        requires { state < length self.now }
        ensures { result ≡ (state_at self.now state).accepting }
    {
        self.held[state as usize].accepting
    }

    /// The moves of a state.
    pub fn moves(&self, state: u64) -> &[Move]
        requires { state < length self.now }
        ensures moves { result.now ≡ (state_at self.now state).moves }
        ensures targets { TargetsBelow (length self.now) result.now }
    {
        &self.held[state as usize].moves
    }
}

/// The automaton with the same moves in which the states accept that don't here. Where each letter has a move in every
/// state, its words are exactly the others.
pub fn complement(det: Det) -> Det
    ensures states { result ≡ map turned det }
    ensures words { (t : Table) (letters : Bits → Bool) → IsComplete t letters det → (word : BitWord) → AreLetters letters word → has_word t result word ≡ not (has_word t det word) }
{
    let mut states = det.held;
    for state in states.iter_mut() {
        state.accepting = !state.accepting;
    }
    Det { held: states }
}
