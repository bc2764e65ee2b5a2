//! What a diagram leaves where the bits at its first levels are fixed, with the bits that leave it.

ghost use Rattle.node_table.specs.Table.{IsValid};

use crate::drawing::{asks_between, drawn, seven_levels};
use bdd_walk::{Piece, split};
use node_table::{MkFault, Ref, Space};
use std::alloc::Global;
use std::test::Fail;

// A diagram, the bits at which it is split, and the level above which they are fixed; and, in their order, what is left with
// the bits that leave it.
type Case<'a> = (&'a str, &'a str, u32, &'a [(&'a str, &'a str)]);

// The pieces of a diagram. Where `within` asks for bits from the level on, there is no answer.
fn pieces_of(space: &mut Space, f: Ref, within: Ref, level: u32) -> Result<Vec<Piece>, MkFault>
    requires f { IsValid space.old f }
    requires within { IsValid space.old within }
{
    if level > space.levels() || !asks_between(space, within, 0, level) {
        return Err(MkFault::Memory);
    }
    split(space, f, within, level)
}

// Whether these are the pieces.
fn are_pieces(
    space: &mut Space,
    pieces: &[Piece],
    expected: &[(&str, &str)],
) -> Result<bool, MkFault> {
    for (piece, (left, at)) in pieces.iter().zip(expected) {
        let left = drawn(space, left)?;
        let at = drawn(space, at)?;
        if piece.left != left || piece.at != at {
            return Ok(false);
        }
    }
    Ok(pieces.len() == expected.len())
}

fn is_split(alloc: Global, case: Case) -> Result<bool, Fail> {
    let (f, within, level, pieces) = case;
    let mut space = seven_levels(alloc, 1_000)?;
    let f = drawn(&mut space, f)?;
    let within = drawn(&mut space, within)?;
    let own = pieces_of(&mut space, f, within, level)?;
    Ok(are_pieces(&mut space, &own, pieces)?)
}

const CASES: &[Case<'static>] = &[
    // The constants leave themselves, with all bits that are asked for, at the level 0 too.
    ("", "-", 3, &[("", "-")]),
    ("-", "-0", 3, &[("-", "-0")]),
    ("--1", "-", 0, &[("--1", "-")]),
    // No bits leave nothing.
    ("-1-1", "", 3, &[]),
    // Level 3 has the bit of level 0 or 1, so that three of the four fixings leave one diagram. It comes behind the other,
    // which the least bits leave, and its guard has all three.
    (
        "00-0 01-1 10-1 11-1",
        "-",
        3,
        &[("---0", "00"), ("---1", "01 10 11")],
    ),
    // The same with the bits 01 left out: the guard has two of the three.
    (
        "00-0 01-1 10-1 11-1",
        "00 1",
        3,
        &[("---0", "00"), ("---1", "1")],
    ),
    // The least bits 00 leave the constant 0, but aren't asked for. Then 01 leaves level 2, 10 its complement, and 11 the
    // constant 0.
    (
        "011 100",
        "01 10 11",
        2,
        &[("--1", "01"), ("--0", "10"), ("", "11")],
    ),
    // Level 0 isn't asked by the diagram, and alone by the bits at which it is split.
    ("-1--1", "0", 3, &[("", "00"), ("----1", "01")]),
    // Level 1 lies above the level, and level 2 not: so the bits at level 0 and 1 leave diagrams of level 2.
    ("0-1 101 110", "-", 2, &[("--1", "0 10"), ("--0", "11")]),
    // Above level 1 there is level 0 alone.
    ("0-1 101 110", "-", 1, &[("--1", "0"), ("-01 -10", "1")]),
];

#[test]
fn splits_diagrams(rt: HostRuntime) -> Result<(), Fail> {
    for case in CASES {
        assert!(rt; is_split(rt.alloc(), *case)?);
    }
    Ok(())
}

// Level 1 has the complement of the bit of level 0. Each of the two patterns takes two nodes, and their union one more. The
// guards are the bit of level 0 and its complement, which are none of these: where there is no place for more, neither is made.
fn is_refused(alloc: Global) -> Result<bool, Fail> {
    let mut space = seven_levels(alloc, 5)?;
    let f = drawn(&mut space, "01 10")?;
    let one = space.one();
    let full = pieces_of(&mut space, f, one, 1).err() == Some(MkFault::Full);
    Ok(full && space.len() == 5)
}

#[test]
fn fills_the_space(rt: HostRuntime) -> Result<(), Fail> {
    assert!(rt; is_refused(rt.alloc())?);
    Ok(())
}
