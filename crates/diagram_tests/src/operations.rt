//! The operations: that the calls succeed with ample memory, and that nothing is worked out twice.

ghost use Rattle.std.specs.Prelude.{◌≡◌, ◌&&◌, ◌||◌, not as negated, if◌then◌else◌, IfOk};
ghost use Rattle.node_table.specs.Table.{value_at, IsValid, Grows};
ghost use Rattle.bdd_ops.specs.Meaning.{StandsFor};

use crate::drawing::{Drawing, Step};
use bdd_ops::{Code, LevelMap, LevelSet, and, ite, not, or};
use node_table::{MkFault, Ref, Space};
use std::alloc::{AllocError, Global};
use std::test::Fail;

// Whether the last of these diagrams is the one with this number. Diagram 2 is the bit at level 0, diagram 3 the one at
// level 1.
fn ends_in(alloc: Global, steps: &[Step], k: usize) -> Result<bool, MkFault> {
    let mut drawing = Drawing::of(alloc, 2, 100, &[Step::Node(0, 0, 1), Step::Node(1, 0, 1)])?;
    drawing.draw_all(steps)?;
    Ok(drawing.has_same(&[(k, steps.len() + 3)]))
}

#[test]
fn answers_each_operation(rt: HostRuntime) -> Result<(), Fail> {
    let alloc = rt.alloc();
    assert!(rt; ends_in(alloc, &[Step::Not(2), Step::And(2, 4)], 0)?);
    assert!(rt; ends_in(alloc, &[Step::Not(2), Step::Or(2, 4)], 1)?);
    assert!(rt; ends_in(alloc, &[Step::Ite(2, 3, 3)], 3)?);
    assert!(rt; ends_in(alloc, &[Step::And(2, 3), Step::Exists(4, 1)], 2)?);
    assert!(rt; ends_in(alloc, &[Step::AndExists(2, 3, 0)], 3)?);
    assert!(rt; ends_in(alloc, &[Step::Not(2), Step::And(4, 3), Step::Hide(5, 0)], 3)?);
    assert!(rt; ends_in(alloc, &[Step::Or(2, 3), Step::Lift(1, 4)], 4)?);
    Ok(())
}

// A full space refuses a new node, and keeps those that it has.
fn is_filled(alloc: Global) -> Result<bool, MkFault> {
    let mut drawing = Drawing::of(
        alloc,
        3,
        3,
        &[
            Step::Node(2, 0, 1),
            Step::Node(1, 0, 2),
            Step::Node(0, 0, 3),
        ],
    )?;
    let refused = drawing.is_full(Step::Not(4));
    drawing.draw(Step::Node(0, 0, 3))?;
    Ok(
        refused
            && drawing.counts() == (3, 3, 3, 3)
            && drawing.has_tops(&[(2, Some(2)), (3, Some(1)), (4, Some(0))])
            && drawing.has_same(&[(5, 4)]),
    )
}

#[test]
fn fills_the_space(rt: HostRuntime) -> Result<(), Fail> {
    assert!(rt; is_filled(rt.alloc())?);
    Ok(())
}

// Draws the parity of so many levels, and answers its number.
fn draw_parity(drawing: &mut Drawing, levels: u8) -> Result<usize, MkFault> {
    let mut parity = 0;
    for level in 0..levels {
        let bit = 2 + 3 * usize::from(level);
        drawing.draw(Step::Node(u32::from(level), 0, 1))?;
        drawing.draw(Step::Not(parity))?;
        drawing.draw(Step::Ite(bit, bit + 1, parity))?;
        parity = bit + 2;
    }
    Ok(parity)
}

// Whether the parity of forty levels, which is diagram 121, has a complement with which it covers all, stays open where one
// level is hidden, and never holds with its complement.
fn is_parity(alloc: Global) -> Result<bool, MkFault> {
    let mut drawing = Drawing::of(alloc, 40, 100_000, &[])?;
    let parity = draw_parity(&mut drawing, 40)?;
    drawing.draw_all(&[
        Step::Not(parity),
        Step::Or(parity, 122),
        Step::Exists(parity, 20),
        Step::AndExists(parity, 122, 20),
    ])?;
    Ok(drawing.has_same(&[(parity, 121), (123, 1), (124, 1)]) && !drawing.has_same(&[(125, 1)]))
}

// Without a memo each of these would take a trillion steps.
#[test]
fn works_nothing_out_twice(rt: HostRuntime) -> Result<(), Fail> {
    assert!(rt; is_parity(rt.alloc())?);
    Ok(())
}

// Five operations in a row: the value of the result follows with no proof file.
fn five(space: &mut Space, f: Ref, g: Ref, h: Ref) -> Result<Ref, MkFault>
    requires f { IsValid space.old f }
    requires g { IsValid space.old g }
    requires h { IsValid space.old h }
    ensures ok { IfOk result (λ r. StandsFor space.new r (λ bits.
        let a = value_at space.old f bits && value_at space.old g bits in
        let b = negated a in
        let c = b || value_at space.old h bits in
        let d = if c then value_at space.old f bits else value_at space.old g bits in
        d && b)) }
    ensures grows { Grows space.old space.new }
{
    let a = and(space, f, g)?;
    let b = not(space, a)?;
    let c = or(space, b, h)?;
    let d = ite(space, c, f, g)?;
    and(space, d, b)
}

// Five operations on constants.
fn is_chained(alloc: Global) -> Result<bool, MkFault> {
    let mut space = match Space::with_limit(alloc, 100) {
        Ok(space) => space,
        Err(_) => return Err(MkFault::Memory),
    };
    let zero = space.zero();
    let one = space.one();
    let r = five(&mut space, one, zero, zero)?;
    Ok(r == one)
}

#[test]
fn chains(rt: HostRuntime) -> Result<(), Fail> {
    assert!(rt; is_chained(rt.alloc())?);
    Ok(())
}

// Whether the set of some levels, which are given in disorder, is 1, 3, 7.
fn is_sorted(alloc: Global) -> Result<bool, AllocError> {
    let set = LevelSet::of(alloc, &[7, 3, 7, 1])?;
    Ok(
        set.len() == 3
            && set.at(0) == Some(1)
            && set.at(1) == Some(3)
            && set.at(2) == Some(7)
            && set.at(3) == None,
    )
}

// Whether a map has the one pair that was given.
fn is_mapped(alloc: Global) -> Result<bool, AllocError> {
    let map = LevelMap::of(alloc, &[(0, 1)])?;
    Ok(map.len() == 1 && map.at(0) == Some((0, 1)) && map.at(1) == None)
}

#[test]
fn keeps_levels(rt: HostRuntime) -> Result<(), Fail> {
    assert!(rt; is_sorted(rt.alloc())?);
    assert!(rt; is_mapped(rt.alloc())?);
    Ok(())
}

#[test]
fn keeps_bits(rt: HostRuntime) {
    let mut code = Code::zero();
    code.set(2047, true);
    code.set(64, true);
    code.set(64, false);
    assert!(rt; code.bit(2047) && !code.bit(64) && !code.bit(0));
}
