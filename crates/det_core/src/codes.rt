//! The states of an automaton in bits, as diagrams.

ghost use Rattle.std.specs.Prelude.{◌≡◌, ◌==◌, ◌<◌, All, length, Err, IfOk};
ghost use Rattle.node_table.specs.Table.{value_at, top_of, IsValid, Grows};
ghost use Rattle.bdd_ops.specs.Meaning.{StandsFor};
ghost use Rattle.det_core.specs.Automata.{state_at};
ghost use Rattle.bdd_ops.specs.Recursion.{StandsBelow};
ghost use Rattle.det_core.specs.Codes.{code_number, has_digit};

use crate::det::Det;
use bdd_ops::{LevelSet, or};
use node_table::{MkFault, Ref, Space};

/// The set of bits that spell this number at these levels, the least significant digit at the last of them, and 0 in front.
/// No bits spell a number that has more digits than there are levels. It is one chain of nodes.
pub fn code(space: &mut Space, levels: &LevelSet, number: u64) -> Result<Ref, MkFault>
    requires { All (λ level. level < space.old.levels) levels.now }
    ensures ok { IfOk result (λ r. StandsFor space.new r (λ bits. code_number levels.now bits == number)) }
    ensures grows { Grows space.old space.new }
    ensures levels { space.new.levels ≡ space.old.levels }
    ensures full { result ≡ Err MkFault.Full → length space.new.nodes ≡ space.new.limit }
{
    let mut rest = number;
    let mut code = space.one();
    for k in (0..levels.len()).rev() {
        let Some(level) = levels.at(k) else {
            unreachable!();
        };
        code = with_digit(space, level, rest % 2 == 1, code)?;
        rest /= 2;
    }
    if rest == 0 {
        Ok(code)
    } else {
        Ok(space.zero())
    }
}

// The bits of a code that have this bit at one level more, above all that it asks for.
fn with_digit(space: &mut Space, level: u32, digit: bool, code: Ref) -> Result<Ref, MkFault>
    requires code { IsValid space.old code }
    requires below { level < top_of space.old code }
    requires exists { level < space.old.levels }
    ensures ok { IfOk result (λ r. StandsBelow space.new level r (λ bits. has_digit level digit (value_at space.old code bits) bits)) }
    ensures grows { Grows space.old space.new }
    ensures levels { space.new.levels ≡ space.old.levels }
    ensures full { result ≡ Err MkFault.Full → length space.new.nodes ≡ space.new.limit }
{
    let zero = space.zero();
    if digit {
        space.mk(level, zero, code)
    } else {
        space.mk(level, code, zero)
    }
}

/// The set of bits that spell an accepting state at these levels.
pub fn accepting_codes(space: &mut Space, det: &Det, levels: &LevelSet) -> Result<Ref, MkFault>
    requires levels { All (λ level. level < space.old.levels) levels.now }
    ensures ok { IfOk result (λ r. StandsFor space.new r (λ bits. (state_at det.now (code_number levels.now bits)).accepting)) }
    ensures grows { Grows space.old space.new }
    ensures levels { space.new.levels ≡ space.old.levels }
    ensures full { result ≡ Err MkFault.Full → length space.new.nodes ≡ space.new.limit }
{
    let mut codes = space.zero();
    for state in 0..det.states() {
        if det.accepting(state) {
            let own = code(space, levels, state)?;
            codes = or(space, codes, own)?;
        }
    }
    Ok(codes)
}
