//! States in bits: codes of numbers, accepting states, and the steps of an automaton.

ghost use Rattle.std.specs.Prelude.{◌≡◌, ◌+◌, ◌<◌, ◌≤◌, ◌^◌, length, All, IfOk, IsTrue};
ghost use Rattle.std.specs.List.{range_with_len};
ghost use Rattle.bdd_ops.specs.Meaning.{StandsFor};
ghost use Rattle.det_core.specs.Automata.{AreGuardsValid};
ghost use Rattle.det_core.specs.Languages.{letters_of};

use crate::automata::{LACKING, LOOPING, Single, WHOLE, completed, det_of, ground, whole_of};
use crate::drawing::{drawn, levels_from, seven_levels};
use bdd_ops::LevelSet;
use det_core::{Det, SolveFault, accepting_codes, code, encode};
use mv_encoding::Coding;
use node_table::{MkFault, Ref, Space};
use part_relation::Parts;
use std::alloc::{AllocError, Global};
use std::test::Fail;

// So many levels of the space from this one on, where they are there.
fn levels_in(space: &Space, first: u32, count: u32) -> Result<LevelSet, AllocError>
    ensures is { IfOk result (λ levels. levels ≡ range_with_len first count) }
    ensures within { IfOk result (λ levels. All (λ level. level < space.now.levels) levels) }
{
    if first > 100 || count > 100 || first + count > space.levels() {
        return Err(AllocError);
    }
    levels_from(space.allocator(), first, count)
}

// The code of a number.
fn code_of(space: &mut Space, levels: (u32, u32), number: u64) -> Result<Ref, MkFault> {
    match levels_in(space, levels.0, levels.1) {
        Ok(levels) => code(space, &levels, number),
        Err(_) => Err(MkFault::Memory),
    }
}

// The codes of the accepting states.
fn codes_of(space: &mut Space, det: &Det, levels: (u32, u32)) -> Result<Ref, MkFault> {
    match levels_in(space, levels.0, levels.1) {
        Ok(levels) => accepting_codes(space, det, &levels),
        Err(_) => Err(MkFault::Memory),
    }
}

// Whether the numbers of all states have so many bits.
fn have_bits(det: &Det, bits: u32) -> bool
    ensures { IsTrue result → length det.now ≤ 2 ^ bits }
{
    match bits {
        1 => det.states() <= 2,
        2 => det.states() <= 4,
        _ => false,
    }
}

// The steps, where so many bits from level 3 on spell the present state, and as many behind them the next one.
fn steps_of(space: &mut Space, det: &Det, bits: u32) -> Result<Parts, SolveFault>
    requires { All (λ s. AreGuardsValid space.old s.moves) det.now }
{
    if bits > 2 || !have_bits(det, bits) {
        return Err(SolveFault::Memory);
    }
    let present = levels_in(space, 3, bits)?;
    let next = levels_in(space, 3 + bits, bits)?;
    encode(space, det, &present, &next)
}

// Whether the automaton that is made complete has these steps.
fn has_steps(
    space: &mut Space,
    letters: &Coding,
    valid: Ref,
    singles: &[Single],
    case: (u32, &str),
) -> Result<bool, Fail>
    requires { StandsFor space.old valid (letters_of letters.now) }
{
    let (bits, patterns) = case;
    let whole = whole_of(space, letters, valid, singles)?;
    let parts = steps_of(space, &whole, bits)?;
    let steps = drawn(space, patterns)?;
    Ok(parts.len() == 1 && parts.at(0) == Some(steps))
}

fn is_encoded(alloc: Global, singles: &[Single], case: (u32, &str)) -> Result<bool, Fail> {
    let (mut space, letters, valid) = ground(alloc, 1_000)?;
    has_steps(&mut space, &letters, valid, singles, case)
}

#[test]
fn encodes_steps(rt: HostRuntime) -> Result<(), Fail> {
    let cases: &[(&[Single], u32, &str)] = &[
        // Level 3 has the present state, and level 4 the next one.
        (WHOLE, 1, "00-01 01-01 10-01 00-10 01-10 10-10"),
        // The letters 0 and 2 lead from state 0 to itself, the letter 1 to state 1, and from there all letters to itself.
        (LOOPING, 1, "00-00 10-00 01-01 00-11 01-11 10-11"),
        // Levels 3 and 4 have the present state, and levels 5 and 6 the next one: the states are 00, 01 and 10, and 11 is none.
        (
            LACKING,
            2,
            "00-0001 01-0001 10-0010 00-0100 01-0100 10-0100 00-1010 01-1010 10-1010",
        ),
    ];
    for (singles, bits, patterns) in cases {
        assert!(rt; is_encoded(rt.alloc(), singles, (*bits, patterns))?);
    }
    Ok(())
}

fn is_code(alloc: Global, levels: (u32, u32), number: u64, patterns: &str) -> Result<bool, Fail> {
    let mut space = seven_levels(alloc, 1_000)?;
    let own = code_of(&mut space, levels, number)?;
    Ok(drawn(&mut space, patterns)? == own)
}

#[test]
fn codes_numbers(rt: HostRuntime) -> Result<(), Fail> {
    // The first level, how many there are, the number, and its digits.
    for (first, count, number, patterns) in [
        (2, 3, 6, "--110"),
        (2, 3, 1, "--001"),
        (2, 3, 0, "--000"),
        (2, 3, 7, "--111"),
        (2, 3, 8, ""),
        (5, 2, 2, "-----10"),
        (5, 2, 4, ""),
        (5, 2, 6, ""),
        (0, 0, 0, "-"),
        (0, 0, 1, ""),
    ] {
        assert!(rt; is_code(rt.alloc(), (first, count), number, patterns)?);
    }
    Ok(())
}

fn has_accepting(alloc: Global, singles: &[Single], patterns: &str) -> Result<bool, Fail> {
    let (mut space, letters, valid) = ground(alloc, 1_000)?;
    let det = det_of(&mut space, &letters, valid, singles)?;
    let own = codes_of(&mut space, &det, (3, 2))?;
    Ok(drawn(&mut space, patterns)? == own)
}

#[test]
fn codes_accepting_states(rt: HostRuntime) -> Result<(), Fail> {
    let cases: &[(&[Single], &str)] = &[
        // State 1 of two, and state 0 of two.
        (LACKING, "---01"),
        (WHOLE, "---00"),
        // The states 1 and 2 of three.
        (
            &[(false, "-", 1), (true, "-", 2), (true, "-", 0)],
            "---01 ---10",
        ),
        (&[(false, "-", 0)], ""),
    ];
    for (singles, patterns) in cases {
        assert!(rt; has_accepting(rt.alloc(), singles, patterns)?);
    }
    Ok(())
}

// A full space of so many nodes, after so many states.
fn limit_after(limit: u32, states: u64) -> Option<SolveFault> {
    let limit = u64::from(limit);
    Some(SolveFault::NodeLimit { limit, states })
}

// The letter 0 leads from the only state to itself. The set of all letters takes two nodes, of which one has the letter 0
// below level 0: so its guard takes one more.
const NARROW: &[Single<'static>] = &[(true, "00", 0)];

// The letters 1 and 2 have no move: a guard of theirs takes two nodes more.
fn refuses_to_complete(alloc: Global, limit: u32) -> Result<bool, Fail> {
    let (mut space, letters, valid) = ground(alloc, limit)?;
    let det = det_of(&mut space, &letters, valid, NARROW)?;
    let fault = completed(&mut space, &letters, det, valid).err();
    Ok(fault == limit_after(limit, 1) && space.len() == u64::from(limit))
}

// A code asks a bit of a state, and no node that was drawn does.
fn refuses_to_encode(alloc: Global, limit: u32) -> Result<bool, Fail> {
    let (mut space, letters, valid) = ground(alloc, limit)?;
    let det = det_of(&mut space, &letters, valid, WHOLE)?;
    let fault = steps_of(&mut space, &det, 1).err();
    let codes = codes_of(&mut space, &det, (3, 2)).err();
    Ok(
        fault == limit_after(limit, 2)
            && codes == Some(MkFault::Full)
            && space.len() == u64::from(limit),
    )
}

// A code takes a node for each digit.
fn refuses_to_code(alloc: Global, limit: u32) -> Result<bool, Fail> {
    let mut space = seven_levels(alloc, limit)?;
    let code = code_of(&mut space, (3, 3), 5).err();
    Ok(code == Some(MkFault::Full) && space.len() == u64::from(limit))
}

#[test]
fn fills_the_space(rt: HostRuntime) -> Result<(), Fail> {
    let alloc = rt.alloc();
    for limit in [3, 4] {
        assert!(rt; refuses_to_complete(alloc, limit)?);
    }
    for limit in [2, 3] {
        assert!(rt; refuses_to_encode(alloc, limit)?);
    }
    for limit in [0, 1, 2] {
        assert!(rt; refuses_to_code(alloc, limit)?);
    }
    Ok(())
}
