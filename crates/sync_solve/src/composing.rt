//! F composed with an automaton over S's letters, and what is left of their words at X's letters.

ghost use Rattle.std.specs.Prelude.{◌≡◌, ◌+◌, ◌*◌, ◌^◌, ◌≤◌, ◌<◌, ◌++◌, ◌↔◌, true, length, Err, IfOk, IfErr, OnOk};
ghost use Rattle.node_table.specs.Table.{Grows};
ghost use Rattle.bdd_ops.specs.Meaning.{StandsFor};
ghost use Rattle.part_relation.specs.Plans.{AreValid};
ghost use Rattle.mv_encoding.specs.Layouts.{levels_of, IsLaid};
ghost use Rattle.mv_encoding.specs.Spots.{all_levels, spell_values};
ghost use Rattle.net_model.specs.Problems.{File as NetFile};
ghost use Rattle.frame_words.specs.Levels.{AreInOrder};
ghost use Rattle.det_core.specs.Automata.{BitWord, AreLetters, has_word, IsDet, MeetsRule, IsComplete, ReadsAlone};
ghost use Rattle.det_core.specs.Languages.{letters_of};
ghost use Rattle.det_core.specs.Faults.{IsLimit};
ghost use Rattle.sync_solve.specs.Files.{AreDiagrams};
ghost use Rattle.sync_solve.specs.Safe.{IsComposed};
ghost use Rattle.sync_solve.specs.Composed.{AreHeld, AreBoth, IsProduct};

use crate::coding::{coded, with_codes};
use crate::machine::Machine;
use bdd_ops::{LevelMap, and};
use det_core::{Det, SolveFault};
use name_table::code_bits;
use net_frame::Frame;
use net_model::Slot;
use node_table::{MkFault, Ref, Space};
use part_relation::Parts;
use std::alloc::AllocError;
use subset_build::determinise;

/// The deterministic automaton of the words over X's letters that some joint word has whose part of F is a word of F, and whose
/// part of S is one of the automaton. `f` are F's diagrams. The numbers of the automaton's states stand on new levels below
/// all others.
pub(crate) fn composed(
    space: &mut Space,
    frame: &Frame,
    f: Machine,
    others: &Det,
) -> Result<Det, SolveFault>
    requires f { (file : NetFile) × AreDiagrams space.old file frame.now.f f.parts f.init f.acc }
    requires order { AreInOrder space.old frame.now }
    requires rule { MeetsRule space.old (spell_values frame.now.s.letters) others.now }
    requires reads { ReadsAlone space.old (all_levels frame.now.s.letters) others.now }
    requires x { IsLaid frame.now.x space.old }
    requires few { space.old.levels ≤ 8000 }
    ensures words { IfOk result (λ det. (file : NetFile) → AreDiagrams space.old file frame.now.f f.parts f.init f.acc
        → (xs : BitWord) → AreLetters (letters_of frame.now.x) xs → (has_word space.new det xs ≡ true) ↔ IsComposed space.old frame.now file others.now xs) }
    ensures rule { IfOk result (MeetsRule space.new (letters_of frame.now.x)) }
    ensures complete { IfOk result (IsComplete space.new (letters_of frame.now.x)) }
    ensures reads { IfOk result (ReadsAlone space.new (levels_of frame.now.x)) }
    ensures grows { Grows space.old space.new }
    ensures limit { IfErr result (IsLimit space.new (λ states. Unit {0})) }
{
    let (product, back) = product(space, frame, f, others)?;
    let valid = letters_of_x(space, frame)?;
    determinise(
        space,
        &product.parts,
        product.init,
        product.acc,
        frame.x().levels(),
        &back,
        valid,
    )
}

// F beside the automaton, with the map of the states of both.
fn product(
    space: &mut Space,
    frame: &Frame,
    f: Machine,
    others: &Det,
) -> Result<(Machine, LevelMap), SolveFault>
    requires f { (file : NetFile) × AreDiagrams space.old file frame.now.f f.parts f.init f.acc }
    requires order { AreInOrder space.old frame.now }
    requires rule { MeetsRule space.old (spell_values frame.now.s.letters) others.now }
    requires reads { ReadsAlone space.old (all_levels frame.now.s.letters) others.now }
    requires few { space.old.levels ≤ 8000 }
    ensures ok { IfOk result (λ made. (file : NetFile) → AreDiagrams space.old file frame.now.f f.parts f.init f.acc → IsProduct space.old space.new frame.now file others.now made.0 made.1) }
    ensures grows { Grows space.old space.new }
    ensures limit { IfErr result (IsLimit space.new (λ states. Unit {0})) }
{
    let digits = digits_of(others)?;
    let first = space.push_levels(2 * digits);
    let own = coded(space, others, first, digits)?;
    let back = with_codes(space.allocator(), frame.back(Slot::F), first, digits)?;
    match beside(space, f, &own) {
        Ok(both) => Ok((both, back)),
        Err(fault) => Err(SolveFault::stopped(space, fault, others.states())),
    }
}

// How many digits the numbers of its states have.
fn digits_of(det: &Det) -> Result<u32, AllocError>
    ensures enough { IfOk result (λ digits. length det.now ≤ 2 ^ digits) }
    ensures few { IfOk result (λ digits. digits ≤ 32) }
    ensures det { IsDet det.now }
{
    let states = det.states();
    if states > u64::from(u32::MAX) {
        return Err(AllocError);
    }
    Ok(code_bits(states as usize))
}

// The steps of both, and the states that are initial, or accepting, in both.
fn beside(space: &mut Space, first: Machine, second: &Machine) -> Result<Machine, MkFault>
    requires first { AreHeld space.old first }
    requires second { AreHeld space.old second.now }
    ensures ok { IfOk result (AreBoth space.old space.new first second.now) }
    ensures grows { Grows space.old space.new }
    ensures levels { space.new.levels ≡ space.old.levels }
    ensures full { result ≡ Err MkFault.Full → length space.new.nodes ≡ space.new.limit }
{
    let init = and(space, first.init, second.init)?;
    let acc = and(space, first.acc, second.acc)?;
    let mut parts = first.parts;
    append(space, &mut parts, &second.parts)?;
    Ok(Machine { parts, init, acc })
}

// Adds parts behind others.
fn append(space: &Space, parts: &mut Parts, more: &Parts) -> Result<(), MkFault>
    requires { AreValid space.now more.now }
    ensures ok { OnOk result (parts.new ≡ parts.old ++ more.now) }
    ensures full { result ≡ Err MkFault.Full → ⊥ }
{
    for k in 0..more.len() {
        let Some(part) = more.at(k) else {
            unreachable!();
        };
        if parts.len() == u32::MAX || parts.add(space, part).is_err() {
            return Err(MkFault::Memory);
        }
    }
    Ok(())
}

// X's letters.
fn letters_of_x(space: &mut Space, frame: &Frame) -> Result<Ref, SolveFault>
    requires { IsLaid frame.now.x space.old }
    ensures ok { IfOk result (λ r. StandsFor space.new r (letters_of frame.now.x)) }
    ensures grows { Grows space.old space.new }
    ensures levels { space.new.levels ≡ space.old.levels }
    ensures limit { IfErr result (IsLimit space.new (λ states. states ≡ 0)) }
{
    match frame.x().valid(space) {
        Ok(valid) => Ok(valid),
        Err(fault) => Err(SolveFault::stopped(space, fault, 0)),
    }
}
