//! The automaton with the same words in which each letter has a move in every state.

ghost use Rattle.std.specs.Prelude.{◌≡◌, ◌<◌, ◌≤◌, ◌+◌, ◌++◌, ◌∷◌, [], ◌&&◌, not, length, Err, IfOk, IfErr, OnOk, OnErr};
ghost use Rattle.node_table.specs.Table.{value_at, IsValid, Grows};
ghost use Rattle.bdd_ops.specs.Meaning.{StandsFor};
ghost use Rattle.det_core.specs.Faults.{IsLimit};
ghost use Rattle.det_core.specs.Automata.{BitWord, states_of, has_word, is_covered, TargetsBelow, AreGuardsValid, AreGuards, MeetsRule, IsComplete};
ghost use Rattle.det_core.specs.Filling.{seen, IsFilled, AreFilled, IsLast, AreCompleted};

use crate::det::{Det, DetState, Move};
use crate::fault::SolveFault;
use bdd_ops::ite;
use node_table::{MkFault, Ref, Space};

/// The automaton with the same words in which each of the letters, which `valid` tells, has a move in every state. Where some
/// letter has none, those without lead to one more state, behind the others, which doesn't accept and is never left. A node
/// limit is told with the number of states of `det`.
pub fn complete(space: &mut Space, det: Det, valid: Ref) -> Result<Det, SolveFault>
    requires valid { IsValid space.old valid }
    requires rule { MeetsRule space.old (value_at space.old valid) det }
    ensures words { IfOk result (λ done. (word : BitWord) → has_word space.new done word ≡ has_word space.old det word) }
    ensures rule { IfOk result (λ done. MeetsRule space.new (value_at space.old valid) done) }
    ensures complete { IfOk result (λ done. IsComplete space.new (value_at space.old valid) done) }
    ensures states { IfOk result (λ done. (length det ≤ length done) × (length done ≤ length det + 1)) }
    ensures grows { Grows space.old space.new }
    ensures levels { space.new.levels ≡ space.old.levels }
    ensures limit { IfErr result (IsLimit space.new (λ states. states ≡ length det)) }
{
    match completed(space, &det, valid) {
        Ok(states) => Ok(Det::of(states)),
        Err(fault) => Err(SolveFault::stopped(space, fault, det.states())),
    }
}

// The states, each with a move more where it lacks one, and behind them the state that those lead to, if there are any.
fn completed(space: &mut Space, det: &Det, valid: Ref) -> Result<Vec<DetState>, MkFault>
    requires valid { IsValid space.old valid }
    requires rule { MeetsRule space.old (value_at space.old valid) det.now }
    ensures ok { IfOk result (λ done. AreCompleted space.old space.new (value_at space.old valid) det.now (states_of done.items)) }
    ensures grows { Grows space.old space.new }
    ensures levels { space.new.levels ≡ space.old.levels }
    ensures full { result ≡ Err MkFault.Full → length space.new.nodes ≡ space.new.limit }
{
    let mut done = Vec::new(space.allocator());
    let lacking = fill_all(space, det, valid, &mut done)?;
    if !lacking {
        return Ok(done);
    }
    let last = trap(space, valid, det.states())?;
    put(&mut done, last)?;
    Ok(done)
}

// Puts each state, with a move more where it lacks one, behind those that are done, and answers whether one lacked any.
fn fill_all(
    space: &mut Space,
    det: &Det,
    valid: Ref,
    done: &mut Vec<DetState>,
) -> Result<bool, MkFault>
    requires valid { IsValid space.old valid }
    requires rule { MeetsRule space.old (value_at space.old valid) det.now }
    requires empty { done.old.items ≡ [] }
    ensures ok { IfOk result (AreFilled space.old space.new (value_at space.old valid) det.now (length det.now) (states_of done.new.items)) }
    ensures grows { Grows space.old space.new }
    ensures levels { space.new.levels ≡ space.old.levels }
    ensures full { result ≡ Err MkFault.Full → length space.new.nodes ≡ space.new.limit }
{
    let count = det.states();
    let mut lacking = false;
    for state in 0..count {
        let mut moves = copied(space, det.moves(state))?;
        lacking |= fill(space, &mut moves, valid, count)?;
        let accepting = det.accepting(state);
        put(done, DetState { accepting, moves })?;
    }
    Ok(lacking)
}

// These moves.
fn copied(space: &Space, moves: &[Move]) -> Result<Vec<Move>, MkFault>
    ensures ok { IfOk result (λ copy. copy.items ≡ moves.now) }
    ensures err { OnErr result (result ≡ Err MkFault.Memory) }
{
    match Vec::from_slice(space.allocator(), moves) {
        Ok(copy) => Ok(copy),
        Err(_) => Err(MkFault::Memory),
    }
}

// The state that no letter leaves, and that doesn't accept.
fn trap(space: &Space, valid: Ref, number: u64) -> Result<DetState, MkFault>
    requires { IsValid space.now valid }
    ensures last { IfOk result (λ state. IsLast space.now (value_at space.now valid) number (seen state)) }
    ensures err { OnErr result (result ≡ Err MkFault.Memory) }
{
    let mut moves = Vec::new(space.allocator());
    if valid == Ref::ZERO {
        return Ok(DetState {
            accepting: false,
            moves,
        });
    }
    add(&mut moves, valid, number)?;
    Ok(DetState {
        accepting: false,
        moves,
    })
}

// Puts a state behind the others.
fn put(states: &mut Vec<DetState>, state: DetState) -> Result<(), MkFault>
    ensures ok { OnOk result (states_of states.new.items ≡ states_of states.old.items ++ seen state ∷ []) }
    ensures err { OnErr result (result ≡ Err MkFault.Memory) }
{
    match states.push(state) {
        Ok(()) => Ok(()),
        Err(_) => Err(MkFault::Memory),
    }
}

// Puts a move behind the others.
fn add(moves: &mut Vec<Move>, guard: Ref, target: u64) -> Result<(), MkFault>
    ensures ok { OnOk result (moves.new.items ≡ moves.old.items ++ record { guard = guard; target = target } ∷ []) }
    ensures err { OnErr result (result ≡ Err MkFault.Memory) }
{
    match moves.push(Move { guard, target }) {
        Ok(()) => Ok(()),
        Err(_) => Err(MkFault::Memory),
    }
}

// Adds a move for the letters that have none, and answers whether there are any.
fn fill(space: &mut Space, moves: &mut Vec<Move>, valid: Ref, target: u64) -> Result<bool, MkFault>
    requires valid { IsValid space.old valid }
    requires rule { AreGuards space.old (value_at space.old valid) moves.old.items }
    requires targets { TargetsBelow target moves.old.items }
    ensures ok { IfOk result (IsFilled space.old space.new (value_at space.old valid) target moves.old.items moves.new.items) }
    ensures grows { Grows space.old space.new }
    ensures levels { space.new.levels ≡ space.old.levels }
    ensures full { result ≡ Err MkFault.Full → length space.new.nodes ≡ space.new.limit }
{
    let rest = uncovered(space, moves, valid)?;
    if rest == Ref::ZERO {
        return Ok(false);
    }
    add(moves, rest, target)?;
    Ok(true)
}

// The letters that no move has.
fn uncovered(space: &mut Space, moves: &[Move], valid: Ref) -> Result<Ref, MkFault>
    requires valid { IsValid space.old valid }
    requires guards { AreGuardsValid space.old moves.now }
    ensures ok { IfOk result (λ r. StandsFor space.new r (λ bits. value_at space.old valid bits && not (is_covered space.old moves.now bits))) }
    ensures grows { Grows space.old space.new }
    ensures levels { space.new.levels ≡ space.old.levels }
    ensures full { result ≡ Err MkFault.Full → length space.new.nodes ≡ space.new.limit }
{
    let zero = space.zero();
    let mut rest = valid;
    for m in moves {
        rest = ite(space, m.guard, zero, rest)?;
    }
    Ok(rest)
}
