//! The subset construction on relations over three letter bits and two state bits: the levels 0, 1 and 2 are those of the
//! letter, 3 and 4 those of the present state, and 5 and 6 those of the next one.

ghost use Rattle.std.specs.Prelude.{◌≡◌, ◌∷◌, [], IfOk};
ghost use Rattle.node_table.specs.Table.{IsValid, Grows};
ghost use Rattle.part_relation.specs.Plans.{AreValid};

use crate::drawing::{asks_between, drawn, levels_from, seven_levels};
use crate::shown::{Rows, has_states};
use bdd_ops::LevelMap;
use det_core::{Det, SolveFault};
use node_table::{MkFault, Ref, Space};
use part_relation::Parts;
use std::alloc::{AllocError, Global};
use std::test::Fail;
use subset_build::determinise;

// The parts, the initial and the accepting states, and the letters.
type Case<'a> = (&'a [&'a str], &'a str, &'a str, &'a str);

// The same as diagrams.
#[derive(Drop)]
struct Relation {
    parts: Parts,
    init: Ref,
    acc: Ref,
    valid: Ref,
}

fn relation_of(space: &mut Space, case: Case) -> Result<Relation, MkFault>
    ensures parts { IfOk result (λ relation. AreValid space.new relation.parts) }
    ensures init { IfOk result (λ relation. IsValid space.new relation.init) }
    ensures acc { IfOk result (λ relation. IsValid space.new relation.acc) }
    ensures valid { IfOk result (λ relation. IsValid space.new relation.valid) }
    ensures levels { space.new.levels ≡ space.old.levels }
{
    let (parts, init, acc, valid) = case;
    let init = drawn(space, init)?;
    let acc = drawn(space, acc)?;
    let valid = drawn(space, valid)?;
    let parts = parts_of(space, parts)?;
    Ok(Relation {
        parts,
        init,
        acc,
        valid,
    })
}

fn parts_of(space: &mut Space, all: &[&str]) -> Result<Parts, MkFault>
    ensures valid { IfOk result (AreValid space.new) }
    ensures grows { Grows space.old space.new }
    ensures levels { space.new.levels ≡ space.old.levels }
{
    let mut parts = Parts::new(space.allocator());
    for patterns in all {
        let part = drawn(space, patterns)?;
        add(space, &mut parts, part)?;
    }
    Ok(parts)
}

// Adds a part to valid ones, up to a thousand.
fn add(space: &Space, parts: &mut Parts, part: Ref) -> Result<(), MkFault>
    requires parts { AreValid space.now parts.old }
    requires part { IsValid space.now part }
    ensures { AreValid space.now parts.new }
{
    if parts.len() >= 1_000 {
        return Err(MkFault::Full);
    }
    match parts.add(space, part) {
        Ok(()) => Ok(()),
        Err(_) => Err(MkFault::Memory),
    }
}

// The map that takes the next state to the present one.
fn next_to_present(alloc: Global) -> Result<LevelMap, AllocError>
    ensures { IfOk result (λ map. map ≡ (5, 3) ∷ (6, 4) ∷ []) }
{
    LevelMap::of(alloc, &[(5, 3), (6, 4)])
}

// The automaton with the words of a relation. Where letters or states are asked for by other levels, there is no answer.
fn determinised(space: &mut Space, relation: &Relation) -> Result<Det, SolveFault>
    requires levels { space.old.levels ≡ 7 }
    requires parts { AreValid space.old relation.now.parts }
    requires init { IsValid space.old relation.now.init }
    requires acc { IsValid space.old relation.now.acc }
    requires valid { IsValid space.old relation.now.valid }
{
    let keep = levels_from(space.allocator(), 0, 3)?;
    let state = next_to_present(space.allocator())?;
    if !asks_between(space, relation.valid, 0, 3)
        || !asks_between(space, relation.init, 3, 5)
        || !asks_between(space, relation.acc, 3, 5)
    {
        return Err(SolveFault::Memory);
    }
    determinise(
        space,
        &relation.parts,
        relation.init,
        relation.acc,
        &keep,
        &state,
        relation.valid,
    )
}

// Whether these are the states of the automaton, in a space of so many nodes.
fn is_determinised(alloc: Global, case: Case, rows: Rows, limit: u32) -> Result<bool, Fail> {
    let mut space = seven_levels(alloc, limit)?;
    let relation = relation_of(&mut space, case)?;
    let det = determinised(&mut space, &relation)?;
    Ok(has_states(&mut space, &det, rows)?)
}

// Whether this is the fault in a space of so many nodes, and all of them are there then.
fn is_refused(alloc: Global, case: Case, limit: u32, states: u64) -> Result<bool, Fail> {
    let mut space = seven_levels(alloc, limit)?;
    let relation = relation_of(&mut space, case)?;
    let limit = u64::from(limit);
    let full = determinised(&mut space, &relation).err()
        == Some(SolveFault::NodeLimit { limit, states });
    Ok(full && space.len() == limit)
}

const CASES: &[(Case<'static>, Rows<'static>)] = &[
    // The letter is the bit of level 0, and there are the states 0 and 1, told by level 3. The letter 0 leads from 0 to both,
    // and the letter 1 from 1 to 0. From {0}, which doesn't accept, 0 leads to {0, 1}, which does, and 1 to no state. From
    // {0, 1} 0 leads to itself and 1 to {0}. The empty set is left by no letter.
    (
        (&["0--0 1--1-0"], "---0", "---1", "-"),
        &[
            (false, &[(1, "0"), (2, "1")]),
            (true, &[(1, "0"), (0, "1")]),
            (false, &[(2, "-")]),
        ],
    ),
    // A letter is a bit and one of three values; no step is at the code 11 past the last value. From {0} the bit 0 leads to
    // {0}, with the bit 1 the first value leads to {1}, and the other two to no state. So the least letters that leave {0} are
    // 000, 100 and 101, and {1} has the number 1 and the empty set 2, though the code 011 leaves the empty set. From {1} the
    // letter 110 alone leads to a state, 0, and it is the greatest.
    (
        (
            &["0000-0 0010-0 0100-0 1000-1 1101-0"],
            "---0",
            "---1",
            "-00 -01 -10",
        ),
        &[
            (false, &[(0, "000 001 010"), (1, "100"), (2, "101 110")]),
            (true, &[(2, "000 001 010 100 101"), (0, "110")]),
            (false, &[(2, "-00 -01 -10")]),
        ],
    ),
    // Two latches in a row: the first has the letter next, and the second what the first has now. The sets have one state
    // each, in the order 00, 10, 01 and 11, and those accept whose second bit is 1.
    (
        (&["0----0 1----1", "---0--0 ---1--1"], "---00", "----1", "-"),
        &[
            (false, &[(0, "0"), (1, "1")]),
            (false, &[(2, "0"), (3, "1")]),
            (true, &[(0, "0"), (1, "1")]),
            (true, &[(2, "0"), (3, "1")]),
        ],
    ),
    // The words whose last letter but one is 1. Each letter leads from 0 to 0, the letter 1 also to 1, and each letter from 1
    // to 2. The sets are {0}, {0, 1}, {0, 2} and {0, 1, 2}; 0 leads from {0} and {0, 2} to {0}, and from the others to {0, 2}.
    (
        (&["---0000 1--0001 ---0110"], "---00", "---10", "-"),
        &[
            (false, &[(0, "0"), (1, "1")]),
            (false, &[(2, "0"), (3, "1")]),
            (true, &[(0, "0"), (1, "1")]),
            (true, &[(2, "0"), (3, "1")]),
        ],
    ),
    // No initial state: the first set is the empty one, and there is no other.
    (
        (&["---0-1"], "", "-", "-00 -01 -10"),
        &[(false, &[(0, "-00 -01 -10")])],
    ),
    // No letters, so no moves.
    ((&["---0-1"], "---0", "-", ""), &[(true, &[])]),
    // No parts: each letter leads from each state to all.
    (
        (&[], "---0", "---1", "-"),
        &[(false, &[(1, "-")]), (true, &[(1, "-")])],
    ),
];

#[test]
fn determinises_relations(rt: HostRuntime) -> Result<(), Fail> {
    for (case, rows) in CASES {
        assert!(rt; is_determinised(rt.alloc(), *case, rows, 1_000)?);
    }
    Ok(())
}

// Each letter leads from 0 to 1, and from 1 the letter 0 to 0 and the letter 1 to 1. The three patterns take three, three and
// one nodes, and their unions two and one: ten.
const TURNING: &[&str] = &["0--0-1 0--1-0 1----1"];

// From {1}, which takes one node more, the image asks for the letter above the next state, and no node that was drawn does.
// With {0} as the first set, and one node more for it, the image is the next state 1, which is drawn, and so is {1} to which it
// is renamed: so there are two sets before the second image. That takes one node, its renaming one, and its two guards one each:
// so there are two sets until 16 nodes have a place.
#[test]
fn fills_the_space(rt: HostRuntime) -> Result<(), Fail> {
    let alloc = rt.alloc();
    assert!(rt; is_refused(alloc, (TURNING, "---1", "---1", "-"), 11, 1)?);
    let case = (TURNING, "---0", "---1", "-");
    for limit in 12..16 {
        assert!(rt; is_refused(alloc, case, limit, 2)?);
    }
    let rows: Rows = &[(false, &[(1, "-")]), (true, &[(0, "0"), (1, "1")])];
    assert!(rt; is_determinised(alloc, case, rows, 16)?);
    Ok(())
}
