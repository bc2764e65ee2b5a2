//! The steps of an automaton as a relation on bits.

ghost use Rattle.std.specs.Prelude.{◌≡◌, ◌==◌, ◌<◌, ◌≤◌, ◌^◌, ◌&&◌, not, nat_lt, Bool, ℕ, All, [], ◌∷◌, length, Err, IfOk, IfErr};
ghost use Rattle.std.specs.List.{list_any};
ghost use Rattle.node_table.specs.Table.{Bits, value_at, IsValid, Grows};
ghost use Rattle.bdd_ops.specs.Meaning.{StandsFor};
ghost use Rattle.part_relation.specs.Plans.{all_hold, AreValid};
ghost use Rattle.det_core.specs.Faults.{IsLimit};
ghost use Rattle.det_core.specs.Automata.{state_at, AreGuardsValid};
ghost use Rattle.det_core.specs.Codes.{code_number, steps_by, leads_to};

use crate::codes::code;
use crate::det::{Det, Move};
use crate::fault::SolveFault;
use bdd_ops::{LevelSet, and, or};
use node_table::{MkFault, Ref, Space};
use part_relation::Parts;

/// The steps of an automaton as one part: 1 exactly at the bits that spell a state at the levels of `present`, are a letter of
/// one of its moves, and spell that move's target at the levels of `next`. Number and levels belong together as in `code`.
/// A disjunction is made of its halves, so each node of a guard is gone through about as often as the numbers of states
/// and moves have digits. A node limit is told with the number of states of the automaton.
pub fn encode(
    space: &mut Space,
    det: &Det,
    present: &LevelSet,
    next: &LevelSet,
) -> Result<Parts, SolveFault>
    requires guards { All (λ s. AreGuardsValid space.old s.moves) det.now }
    requires present { All (λ level. level < space.old.levels) present.now }
    requires next { All (λ level. level < space.old.levels) next.now }
    requires enough { (length det.now ≤ 2 ^ length present.now) × (length det.now ≤ 2 ^ length next.now) }
    ensures steps { IfOk result (λ parts. (bits : Bits) → all_hold space.new parts bits ≡ steps_by space.old det.now (code_number present.now bits) bits (code_number next.now bits)) }
    ensures valid { IfOk result (λ parts. AreValid space.new parts) }
    ensures grows { Grows space.old space.new }
    ensures levels { space.new.levels ≡ space.old.levels }
    ensures limit { IfErr result (IsLimit space.new (λ states. states ≡ length det.now)) }
{
    let steps = match steps_between(space, det, 0, det.states(), present, next) {
        Ok(steps) => steps,
        Err(fault) => return Err(SolveFault::stopped(space, fault, det.states())),
    };
    let mut parts = Parts::new(space.allocator());
    parts.add(space, steps)?;
    Ok(parts)
}

// The steps from the states with these numbers, of which there is one at least.
fn steps_between(
    space: &mut Space,
    det: &Det,
    start: u64,
    end: u64,
    present: &LevelSet,
    next: &LevelSet,
) -> Result<Ref, MkFault>
    requires some { start < end }
    requires states { end ≤ length det.now }
    requires guards { All (λ s. AreGuardsValid space.old s.moves) det.now }
    requires present { All (λ level. level < space.old.levels) present.now }
    requires next { All (λ level. level < space.old.levels) next.now }
    ensures ok { IfOk result (λ r. StandsFor space.new r (λ bits. (not (nat_lt (code_number present.now bits) start) && nat_lt (code_number present.now bits) end) && steps_by space.old det.now (code_number present.now bits) bits (code_number next.now bits))) }
    ensures grows { Grows space.old space.new }
    ensures levels { space.new.levels ≡ space.old.levels }
    ensures full { result ≡ Err MkFault.Full → length space.new.nodes ≡ space.new.limit }
{
    if end - start == 1 {
        let from = code(space, present, start)?;
        let leads = leads(space, det.moves(start), next)?;
        and(space, from, leads)
    } else {
        let middle = start + (end - start) / 2;
        let first = steps_between(space, det, start, middle, present, next)?;
        let second = steps_between(space, det, middle, end, present, next)?;
        or(space, first, second)
    }
}

// The letters of these moves, each with the code of its target.
fn leads(space: &mut Space, moves: &[Move], next: &LevelSet) -> Result<Ref, MkFault>
    requires guards { AreGuardsValid space.old moves.now }
    requires next { All (λ level. level < space.old.levels) next.now }
    ensures ok { IfOk result (λ r. StandsFor space.new r (λ bits. leads_to space.old moves.now bits (code_number next.now bits))) }
    ensures grows { Grows space.old space.new }
    ensures levels { space.new.levels ≡ space.old.levels }
    ensures full { result ≡ Err MkFault.Full → length space.new.nodes ≡ space.new.limit }
{
    match moves {
        [] => Ok(space.zero()),
        [only] => {
            let to = code(space, next, only.target)?;
            and(space, to, only.guard)
        }
        _ => {
            let (first, second) = moves.split_at(moves.len() / 2);
            let first = leads(space, first, next)?;
            let second = leads(space, second, next)?;
            or(space, first, second)
        }
    }
}
