//! Automata over the letters of one variable of three values, which has the levels 0 and 1: the codes 00, 01 and 10 are
//! letters, and 11 is none.

ghost use Rattle.std.specs.Prelude.{◌≡◌, ◌<◌, ◌++◌, ◌∷◌, [], true, length, All, IfOk, OnOk, IsTrue};
ghost use Rattle.name_table.specs.ScopeVars.{variable_at};
ghost use Rattle.net_model.specs.Words.{IsLetter, IsWord};
ghost use Rattle.node_table.specs.Table.{Bits, value_at, IsValid, Grows};
ghost use Rattle.bdd_ops.specs.Meaning.{StandsFor};
ghost use Rattle.mv_encoding.specs.Layouts.{levels_of, IsLaid};
ghost use Rattle.det_core.specs.Automata.{AreGuards, AreGuardsValid, MeetsRule, ReadsAlone};
ghost use Rattle.det_core.specs.Languages.{letters_of, word_of};
ghost use Rattle.automata_tests.specs.Drawings.{AsksBetween};

use crate::drawing::{asks_between, drawn, seven_levels};
use crate::shown::{Rows, has_states};
use bdd_ops::and;
use det_core::{
    Det, DetState, Move, SolveFault, automata_stay_when_spaces_grow, complement, complete,
    words_are_those_of_runs,
};
use mv_encoding::{CodeFault, Coding};
use name_table::{Domain, Scope, ScopeVar};
use net_model::{Letter, Word};
use node_table::{MkFault, Ref, Space};
use std::alloc::{AllocError, Global};
use std::test::Fail;

// One variable of three values.
fn one_variable(alloc: Global) -> Result<Scope, CodeFault> {
    let name = Vec::from_slice(alloc, b"v")?;
    let domain = match Domain::numbered(alloc, 3) {
        Ok(domain) => domain,
        Err(_) => return Err(CodeFault::Memory),
    };
    let mut vars = Vec::new(alloc);
    match vars.push(ScopeVar { name, domain }) {
        Ok(()) => Ok(Scope::of_vars(vars)),
        Err(_) => Err(CodeFault::Memory),
    }
}

// Its letters.
fn letters(alloc: Global) -> Result<Coding, CodeFault> {
    let scope = one_variable(alloc)?;
    Coding::plan(alloc, &scope, 0)
}

// Whether the letters have their levels from level 0 on, and all are there.
fn are_laid(space: &Space, letters: &Coding) -> bool
    ensures first { IsTrue result → letters.now.first ≡ 0 }
    ensures laid { IsTrue result → IsLaid letters.now space.now }
{
    letters.first() == 0 && letters.bits() <= space.levels()
}

// The set of all letters.
fn valid_of(space: &mut Space, letters: &Coding) -> Result<Ref, MkFault>
    ensures { IfOk result (λ r. StandsFor space.new r (letters_of letters.now)) }
{
    if !are_laid(space, letters) {
        return Err(MkFault::Full);
    }
    letters.valid(space)
}

// The letters among these bits.
fn guard_of(space: &mut Space, letters: &Coding, valid: Ref, patterns: &str) -> Result<Ref, MkFault>
    requires { StandsFor space.old valid (letters_of letters.now) }
    ensures valid { IfOk result (IsValid space.new) }
    ensures within { IfOk result (λ r. (bits : Bits) → value_at space.new r bits ≡ true → letters_of letters.now bits ≡ true) }
    ensures grows { Grows space.old space.new }
{
    let all = drawn(space, patterns)?;
    and(space, all, valid)
}

// The move with these letters, and none where there are none.
fn one_move(space: &Space, letters: &Coding, guard: Ref, target: u64) -> Result<Vec<Move>, MkFault>
    requires valid { IsValid space.now guard }
    requires within { (bits : Bits) → value_at space.now guard bits ≡ true → letters_of letters.now bits ≡ true }
    ensures rule { IfOk result (λ moves. AreGuards space.now (letters_of letters.now) moves.items) }
    ensures targets { IfOk result (λ moves. All (λ m. m.target ≡ target) moves.items) }
{
    let mut moves = Vec::new(space.allocator());
    if guard == Ref::ZERO {
        return Ok(moves);
    }
    match moves.push(Move { guard, target }) {
        Ok(()) => Ok(moves),
        Err(_) => Err(MkFault::Memory),
    }
}

// The same of the letters of these patterns.
fn moves_by(
    space: &mut Space,
    letters: &Coding,
    valid: Ref,
    patterns: &str,
    target: u64,
) -> Result<Vec<Move>, MkFault>
    requires { StandsFor space.old valid (letters_of letters.now) }
    ensures rule { IfOk result (λ moves. AreGuards space.new (letters_of letters.now) moves.items) }
    ensures targets { IfOk result (λ moves. All (λ m. m.target ≡ target) moves.items) }
    ensures grows { Grows space.old space.new }
{
    let guard = guard_of(space, letters, valid, patterns)?;
    one_move(space, letters, guard, target)
}

/// Of each state whether it accepts, the patterns of the letters of its only move, and the target. Without such letters it has
/// no move.
pub(crate) type Single<'a> = (bool, &'a str, u64);

/// The automaton with these states. It is none without states, or where there is no target.
pub(crate) fn det_of(
    space: &mut Space,
    letters: &Coding,
    valid: Ref,
    singles: &[Single],
) -> Result<Det, MkFault>
    requires { StandsFor space.old valid (letters_of letters.now) }
    ensures rule { IfOk result (MeetsRule space.new (letters_of letters.now)) }
    ensures grows { Grows space.old space.new }
{
    let mut states = Vec::new(space.allocator());
    for single in singles {
        if single.2 >= singles.len() as u64 {
            return Err(MkFault::Full);
        }
        let moves = moves_by(space, letters, valid, single.1, single.2)?;
        let accepting = single.0;
        put(&mut states, DetState { accepting, moves })?;
    }
    if states.is_empty() {
        return Err(MkFault::Full);
    }
    Ok(Det::of(states))
}

// Puts a state behind the others.
fn put(states: &mut Vec<DetState>, state: DetState) -> Result<(), MkFault>
    ensures { OnOk result (states.new.items ≡ states.old.items ++ state ∷ []) }
{
    match states.push(state) {
        Ok(()) => Ok(()),
        Err(_) => Err(MkFault::Memory),
    }
}

/// The complete automaton.
pub(crate) fn completed(
    space: &mut Space,
    letters: &Coding,
    det: Det,
    valid: Ref,
) -> Result<Det, SolveFault>
    requires valid { StandsFor space.old valid (letters_of letters.now) }
    requires rule { MeetsRule space.old (letters_of letters.now) det }
    ensures rule { IfOk result (MeetsRule space.new (letters_of letters.now)) }
    ensures grows { Grows space.old space.new }
{
    complete(space, det, valid)
}

/// The automaton with these states, made complete.
pub(crate) fn whole_of(
    space: &mut Space,
    letters: &Coding,
    valid: Ref,
    singles: &[Single],
) -> Result<Det, SolveFault>
    requires { StandsFor space.old valid (letters_of letters.now) }
    ensures { IfOk result (MeetsRule space.new (letters_of letters.now)) }
{
    match det_of(space, letters, valid, singles) {
        Ok(det) => completed(space, letters, det, valid),
        Err(_) => Err(SolveFault::Memory),
    }
}

// The complement.
fn turned(space: &Space, letters: &Coding, det: Det) -> Det
    requires { MeetsRule space.now (letters_of letters.now) det }
    ensures { MeetsRule space.now (letters_of letters.now) result }
{
    complement(det)
}

// Whether the guards of these moves ask only levels above `end`.
fn moves_ask(space: &Space, moves: &[Move], end: u32) -> bool
    requires { AreGuardsValid space.now moves.now }
    ensures { IsTrue result → All (λ m. AsksBetween space.now 0 end m.guard) moves.now }
{
    for m in moves {
        if !asks_between(space, m.guard, 0, end) {
            return false;
        }
    }
    true
}

// Whether all guards ask only the levels of the letters.
fn reads_alone(space: &Space, letters: &Coding, det: &Det) -> bool
    requires rule { MeetsRule space.now (letters_of letters.now) det.now }
    requires first { letters.now.first ≡ 0 }
    ensures { IsTrue result → ReadsAlone space.now (levels_of letters.now) det.now }
{
    for state in 0..det.states() {
        if !moves_ask(space, det.moves(state), letters.bits()) {
            return false;
        }
    }
    true
}

// How many values the variable at a place has.
fn values_at(scope: &Scope, var: u32) -> u32
    requires { var < length scope.now }
    ensures { result ≡ length (variable_at scope.now var).values }
{
    scope.domain(var).unwrap().len()
}

// Whether the values are those of a letter.
fn is_letter(scope: &Scope, letter: &Letter) -> bool
    ensures { IsTrue result → IsLetter scope.now letter.now.values.items }
{
    if letter.values.len() != scope.len() as usize {
        return false;
    }
    for var in 0..scope.len() {
        if letter.values[var as usize] >= values_at(scope, var) {
            return false;
        }
    }
    true
}

// The letter with this value.
fn letter_of(alloc: Global, scope: &Scope, value: u32) -> Result<Letter, AllocError>
    ensures { IfOk result (λ letter. IsLetter scope.now letter.values.items) }
{
    let values = Vec::from_slice(alloc, &[value])?;
    let letter = Letter { values };
    if is_letter(scope, &letter) {
        Ok(letter)
    } else {
        Err(AllocError)
    }
}

// The word of the letters with these values.
fn word(alloc: Global, scope: &Scope, values: &[u32]) -> Result<Word, AllocError>
    ensures { IfOk result (λ word. IsWord scope.now (word_of word.letters.items)) }
{
    let mut letters = Vec::new(alloc);
    for value in values {
        let letter = letter_of(alloc, scope, *value)?;
        letters.push(letter)?;
    }
    Ok(Word { letters })
}

fn has_word(space: &Space, letters: &Coding, det: &Det, values: &[u32]) -> Result<bool, AllocError>
    requires { MeetsRule space.now (letters_of letters.now) det.now }
{
    if !are_laid(space, letters) {
        return Err(AllocError);
    }
    if !reads_alone(space, letters, det) {
        return Err(AllocError);
    }
    let word = word(space.allocator(), letters.scope(), values)?;
    Ok(det.accepts(space, letters, &word))
}

// Words, and of each whether the automaton has it.
type Words<'a> = &'a [(&'a [u32], bool)];

// Whether the automaton has just those of the words, or in its complement just the others.
fn has_words(
    space: &Space,
    letters: &Coding,
    det: &Det,
    words: Words,
    others: bool,
) -> Result<bool, AllocError>
    requires { MeetsRule space.now (letters_of letters.now) det.now }
{
    for (values, own) in words {
        if has_word(space, letters, det, values)? != (*own != others) {
            return Ok(false);
        }
    }
    Ok(true)
}

// Whether the automaton has these words, also once it is complete, and then its complement the others.
fn has_language(
    space: &mut Space,
    letters: &Coding,
    valid: Ref,
    singles: &[Single],
    words: Words,
) -> Result<bool, Fail>
    requires { StandsFor space.old valid (letters_of letters.now) }
{
    let det = det_of(space, letters, valid, singles)?;
    let before = has_words(space, letters, &det, words, false)?;
    let whole = completed(space, letters, det, valid)?;
    let after = has_words(space, letters, &whole, words, false)?;
    let turned = turned(space, letters, whole);
    Ok(before && after && has_words(space, letters, &turned, words, true)?)
}

// Whether these are the states of the complete automaton.
fn is_completed(
    space: &mut Space,
    letters: &Coding,
    valid: Ref,
    singles: &[Single],
    rows: Rows,
) -> Result<bool, Fail>
    requires { StandsFor space.old valid (letters_of letters.now) }
{
    let whole = whole_of(space, letters, valid, singles)?;
    Ok(has_states(space, &whole, rows)?)
}

/// A space of so many nodes, the letters, and the set of them.
pub(crate) fn ground(alloc: Global, limit: u32) -> Result<(Space, Coding, Ref), Fail>
    ensures { IfOk result (λ made. StandsFor made.0 made.2 (letters_of made.1)) }
{
    let letters = letters(alloc)?;
    let mut space = seven_levels(alloc, limit)?;
    let valid = valid_of(&mut space, &letters)?;
    Ok((space, letters, valid))
}

// The same of letters of one variable of three values.
fn has_words_of_three(alloc: Global, singles: &[Single], words: Words) -> Result<bool, Fail> {
    let (mut space, letters, valid) = ground(alloc, 1_000)?;
    has_language(&mut space, &letters, valid, singles, words)
}

fn is_completed_to(alloc: Global, singles: &[Single], rows: Rows) -> Result<bool, Fail> {
    let (mut space, letters, valid) = ground(alloc, 1_000)?;
    is_completed(&mut space, &letters, valid, singles, rows)
}

/// Where the letters 0 and 1 lead from state 0 to state 1, and the letter 2 nowhere, and all from state 1 back to state 0.
pub(crate) const LACKING: &[Single<'static>] = &[(false, "00 01", 1), (true, "-", 0)];

/// Where all letters lead from state 0, which accepts, to state 1 and back.
pub(crate) const WHOLE: &[Single<'static>] = &[(true, "-", 1), (false, "-", 0)];

// One state that no letter leaves.
const STUCK: &[Single<'static>] = &[(true, "", 0)];

/// One state that accepts and that the letters 0 and 2 lead to.
pub(crate) const LOOPING: &[Single<'static>] = &[(true, "00 10", 0)];

#[test]
fn completes_automata(rt: HostRuntime) -> Result<(), Fail> {
    let cases: &[(&[Single], Rows)] = &[
        // The letter 2 leads from state 0 to one more state, which doesn't accept and which no letter leaves.
        (
            LACKING,
            &[
                (false, &[(1, "00 01"), (2, "10")]),
                (true, &[(0, "00 01 10")]),
                (false, &[(2, "00 01 10")]),
            ],
        ),
        // Each letter has a move, and the code 11 needs none.
        (
            WHOLE,
            &[(true, &[(1, "00 01 10")]), (false, &[(0, "00 01 10")])],
        ),
        (
            STUCK,
            &[(true, &[(1, "00 01 10")]), (false, &[(1, "00 01 10")])],
        ),
        (
            LOOPING,
            &[
                (true, &[(0, "00 10"), (1, "01")]),
                (false, &[(1, "00 01 10")]),
            ],
        ),
    ];
    for (singles, rows) in cases {
        assert!(rt; is_completed_to(rt.alloc(), singles, rows)?);
    }
    Ok(())
}

#[test]
fn accepts_words(rt: HostRuntime) -> Result<(), Fail> {
    let cases: &[(&[Single], Words)] = &[
        // The words of odd length whose letters at the first, third, and so on place are 0 or 1.
        (
            LACKING,
            &[
                (&[], false),
                (&[0], true),
                (&[1], true),
                (&[2], false),
                (&[0, 2], false),
                (&[0, 2, 1], true),
                (&[1, 2, 2], false),
                (&[2, 0, 0], false),
                (&[0, 1, 1, 2, 0], true),
            ],
        ),
        // The words of even length.
        (
            WHOLE,
            &[
                (&[], true),
                (&[2], false),
                (&[2, 1], true),
                (&[0, 1, 2], false),
            ],
        ),
        // The empty word.
        (STUCK, &[(&[], true), (&[0], false), (&[2, 2], false)]),
        // The words without the letter 1.
        (
            LOOPING,
            &[
                (&[], true),
                (&[0, 2, 2, 0], true),
                (&[1], false),
                (&[2, 1, 2], false),
            ],
        ),
    ];
    for (singles, words) in cases {
        assert!(rt; has_words_of_three(rt.alloc(), singles, words)?);
    }
    words_are_those_of_runs();
    automata_stay_when_spaces_grow();
    Ok(())
}
