//! Whether an automaton has a word.

ghost use Rattle.std.specs.Prelude.{◌≡◌, ◌≤◌, ◌↔◌, IsTrue, All};
ghost use Rattle.node_table.specs.Table.{Bits, value_at, IsValid, IsEnd};
ghost use Rattle.bdd_ops.specs.Meaning.{DependsOn};
ghost use Rattle.bdd_ops.specs.Words.{bit_of};
ghost use Rattle.net_model.specs.Words.{IsWord};
ghost use Rattle.mv_encoding.specs.Layouts.{levels_of, IsLaid};
ghost use Rattle.mv_encoding.specs.Sets.{HasCode};
ghost use Rattle.det_core.specs.Automata.{target_of, MeetsRule, AreGuardsValid, ReadsAlone};
ghost use Rattle.det_core.specs.Languages.{word_of, letters_of, HasLetters};

use crate::det::{Det, Move};
use bdd_ops::Code;
use mv_encoding::Coding;
use net_model::Word;
use node_table::{Ref, Space};

impl Det {
    /// Whether the automaton has the word. Its guards are sets of letters under the coding. For each letter of the word it goes
    /// down the guards of one state.
    pub fn accepts(&self, space: &Space, coding: &Coding, word: &Word) -> bool
        requires levels { IsLaid coding.now space.now }
        requires rule { MeetsRule space.now (letters_of coding.now) self.now }
        requires reads { ReadsAlone space.now (levels_of coding.now) self.now }
        requires word { IsWord coding.now.scope (word_of word.now.letters.items) }
        ensures { IsTrue result ↔ HasLetters space.now coding.now self.now (word_of word.now.letters.items) }
    {
        // There is a state 0.
        let _count = self.states();
        let mut state = 0;
        for letter in &word.letters {
            let code = coding.code_of(letter);
            match target(space, coding, self.moves(state), &code) {
                Some(next) => state = next,
                None => return false,
            }
        }
        self.accepting(state)
    }
}

// Where the letter with this code leads.
fn target(space: &Space, coding: &Coding, moves: &[Move], code: &Code) -> Option<u64>
    requires guards { AreGuardsValid space.now moves.now }
    requires reads { All (λ m. DependsOn space.now (levels_of coding.now) m.guard) moves.now }
    ensures { (bits : Bits) → HasCode coding.now (bit_of code.now) bits → result ≡ target_of space.now moves.now bits }
{
    for m in moves {
        if has_code(space, coding, m.guard, code) {
            return Some(m.target);
        }
    }
    None
}

// Whether a set of letters has the one with this code.
fn has_code(space: &Space, coding: &Coding, letters: Ref, code: &Code) -> bool
    requires valid { IsValid space.now letters }
    requires reads { DependsOn space.now (levels_of coding.now) letters }
    ensures { (bits : Bits) → HasCode coding.now (bit_of code.now) bits → result ≡ value_at space.now letters bits }
{
    // A letter has no more bits than a code.
    let _bits = coding.bits();
    let Some(level) = space.level(letters) else {
        return letters == Ref::ONE;
    };
    let place = level - coding.first();
    has_code(space, coding, end(space, letters, code.bit(place)), code)
}

// The end of a node for a bit.
fn end(space: &Space, r: Ref, bit: bool) -> Ref
    requires valid { IsValid space.now r }
    requires node { 2 ≤ r }
    ensures { IsEnd space.now r bit result }
{
    if bit { space.hi(r) } else { space.lo(r) }
}
