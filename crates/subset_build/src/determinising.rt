//! The subset construction.

ghost use Rattle.std.specs.Prelude.{◌≡◌, ◌↔◌, ◌++◌, ◌∷◌, [], ℕ, true, length, slice_index, Err, IfOk, IfErr, OnOk, OnErr};
ghost use Rattle.node_table.specs.Table.{value_at, Grows};
ghost use Rattle.part_relation.specs.Plans.{AreValid};
ghost use Rattle.det_core.specs.Faults.{IsLimit};
ghost use Rattle.det_core.specs.Automata.{BitWord, states_of, has_word, AreLetters, MeetsRule, IsComplete, ReadsAlone};
ghost use Rattle.det_core.specs.Filling.{seen};
ghost use Rattle.subset_build.specs.Relations.{Relation, present_of, relation_of, HasRun, AreInOrder, Reads};
ghost use Rattle.subset_build.specs.Subsets.{AreSoMany, IsExplored, IsState, AreNextOf};
ghost use Rattle.subset_build.specs.Tables.{Extends};
ghost use Rattle.subset_build.specs.Preparing.{IsGround, IsGroundOf};

use crate::found::Found;
use crate::images::{meets, step};
use crate::joining::join_small;
use crate::moves::moves_of;
use crate::prepared::Prepared;
use bdd_ops::{LevelMap, LevelSet};
use det_core::{Det, DetState, SolveFault};
use node_table::{MkFault, Ref, Space};
use part_relation::Parts;

/// The deterministic automaton with the words of a relation: some run of it on the word leads from a state of `init` to one of
/// `acc`, by steps at which all parts are 1. `keep` are the levels of the letters, which `valid` tells, and `state` takes each
/// level of the next state to that of the present one. The automaton is complete. Each of its states stands for a different
/// set of states, the empty one too, in the order in which they are found, breadth first, and the moves of a state by the
/// least of their letters.
///
/// Small parts are joined first, and one plan is made for all images. For each set the parts are conjoined once, and the image
/// is gone through once. A node limit is told with the number of sets found so far.
pub fn determinise(
    space: &mut Space,
    parts: &Parts,
    init: Ref,
    acc: Ref,
    keep: &LevelSet,
    state: &LevelMap,
    valid: Ref,
) -> Result<Det, SolveFault>
    requires order { AreInOrder space.old.levels keep.now state.now }
    requires parts { AreValid space.old parts.now }
    requires init { Reads space.old (present_of state.now) init }
    requires acc { Reads space.old (present_of state.now) acc }
    requires valid { Reads space.old keep.now valid }
    ensures words { IfOk result (λ det. (word : BitWord) → AreLetters (value_at space.old valid) word → (has_word space.new det word ≡ true) ↔ HasRun (relation_of space.old parts.now init acc keep.now state.now) word) }
    ensures rule { IfOk result (MeetsRule space.new (value_at space.old valid)) }
    ensures complete { IfOk result (IsComplete space.new (value_at space.old valid)) }
    ensures reads { IfOk result (ReadsAlone space.new keep.now) }
    ensures sets { IfOk result (λ det. AreSoMany space.new (relation_of space.old parts.now init acc keep.now state.now) (value_at space.old valid) (length det)) }
    ensures grows { Grows space.old space.new }
    ensures levels { space.new.levels ≡ space.old.levels }
    ensures limit { IfErr result (IsLimit space.new (AreSoMany space.new (relation_of space.old parts.now init acc keep.now state.now) (value_at space.old valid))) }
{
    match join_small(space, parts) {
        Ok(joined) => determinise_joined(space, &joined, init, acc, keep, state, valid),
        Err(fault) => Err(SolveFault::stopped(space, fault, 1)),
    }
}

// The same, by a plan for these very parts.
fn determinise_joined(
    space: &mut Space,
    parts: &Parts,
    init: Ref,
    acc: Ref,
    keep: &LevelSet,
    state: &LevelMap,
    valid: Ref,
) -> Result<Det, SolveFault>
    requires order { AreInOrder space.old.levels keep.now state.now }
    requires parts { AreValid space.old parts.now }
    requires init { Reads space.old (present_of state.now) init }
    requires acc { Reads space.old (present_of state.now) acc }
    requires valid { Reads space.old keep.now valid }
    ensures words { IfOk result (λ det. (word : BitWord) → AreLetters (value_at space.old valid) word → (has_word space.new det word ≡ true) ↔ HasRun (relation_of space.old parts.now init acc keep.now state.now) word) }
    ensures rule { IfOk result (MeetsRule space.new (value_at space.old valid)) }
    ensures complete { IfOk result (IsComplete space.new (value_at space.old valid)) }
    ensures reads { IfOk result (ReadsAlone space.new keep.now) }
    ensures sets { IfOk result (λ det. AreSoMany space.new (relation_of space.old parts.now init acc keep.now state.now) (value_at space.old valid) (length det)) }
    ensures grows { Grows space.old space.new }
    ensures levels { space.new.levels ≡ space.old.levels }
    ensures limit { IfErr result (IsLimit space.new (AreSoMany space.new (relation_of space.old parts.now init acc keep.now state.now) (value_at space.old valid))) }
{
    let prepared = Prepared::of(space, parts, keep, state)?;
    let states = explore(space, parts, &prepared, init, acc, valid)?;
    Ok(Det::of(states))
}

// A state for each set that is found.
fn explore(
    space: &mut Space,
    parts: &Parts,
    prepared: &Prepared,
    init: Ref,
    acc: Ref,
    valid: Ref,
) -> Result<Vec<DetState>, SolveFault>
    requires { (rel : Relation) × IsGround space.old parts.now prepared.now init acc valid rel }
    ensures ok { IfOk result (λ states. (rel : Relation) → IsGround space.old parts.now prepared.now init acc valid rel → IsExplored space.new rel (value_at space.old valid) (states_of states.items)) }
    ensures grows { Grows space.old space.new }
    ensures levels { space.new.levels ≡ space.old.levels }
    ensures limit { IfErr result (IsLimit space.new (λ count. (rel : Relation) → IsGround space.old parts.now prepared.now init acc valid rel → AreSoMany space.new rel (value_at space.old valid) count)) }
{
    let mut sets = Found::new(space.allocator());
    sets.number_of(init)?;
    let mut states = Vec::new(space.allocator());
    while let Some(set) = sets.at(states.len() as u64) {
        match state_of(space, parts, prepared, acc, valid, set, &mut sets) {
            Ok(state) => put(&mut states, state)?,
            Err(fault) => return Err(SolveFault::stopped(space, fault, sets.len())),
        }
    }
    Ok(states)
}

// The state of a set.
fn state_of(
    space: &mut Space,
    parts: &Parts,
    prepared: &Prepared,
    acc: Ref,
    valid: Ref,
    set: Ref,
    sets: &mut Found,
) -> Result<DetState, MkFault>
    requires { (rel : Relation) × IsGroundOf space.old parts.now prepared.now acc valid rel × Reads space.old (present_of rel.state) set }
    ensures ok { IfOk result (λ state. (rel : Relation) (k : ℕ) → IsGroundOf space.old parts.now prepared.now acc valid rel → Reads space.old (present_of rel.state) set → slice_index sets.new k ≡ set → IsState space.new rel (value_at space.old valid) sets.new k (seen state)) }
    ensures extends { Extends sets.old sets.new }
    ensures came { (rel : Relation) → IsGroundOf space.old parts.now prepared.now acc valid rel → Reads space.old (present_of rel.state) set → AreNextOf space.new rel (value_at space.old valid) (value_at space.old set) sets.old sets.new }
    ensures grows { Grows space.old space.new }
    ensures levels { space.new.levels ≡ space.old.levels }
    ensures full { result ≡ Err MkFault.Full → length space.new.nodes ≡ space.new.limit }
{
    let accepting = meets(space, set, acc)?;
    let image = step(space, parts, prepared, set)?;
    let moves = moves_of(space, image, valid, prepared.level, sets)?;
    Ok(DetState { accepting, moves })
}

// Puts a state behind the others.
fn put(states: &mut Vec<DetState>, state: DetState) -> Result<(), SolveFault>
    ensures ok { OnOk result (states_of states.new.items ≡ states_of states.old.items ++ seen state ∷ []) }
    ensures err { OnErr result (result ≡ Err SolveFault.Memory) }
{
    match states.push(state) {
        Ok(()) => Ok(()),
        Err(_) => Err(SolveFault::Memory),
    }
}
