//! Relations told by parts: plans, images, and that hiding early keeps diagrams small.

ghost use Rattle.std.specs.Prelude.{◌≡◌, ◌<◌, All, IfOk, IfSome, IsTrue};
ghost use Rattle.node_table.specs.Table.{IsValid, Grows};
ghost use Rattle.part_relation.specs.Plans.{AreValid, Fits};

use crate::drawing::{Drawing, Step};
use bdd_ops::LevelSet;
use node_table::{MkFault, Ref, Space};
use part_relation::{Parts, Schedule, image, plans_fit_when_spaces_grow, schedule};
use std::alloc::{AllocError, Global};
use std::test::Fail;

// Whether all of these are levels of the space.
fn are_levels(space: &Space, levels: &[u32]) -> bool
    ensures { IsTrue result → All (λ level. level < space.now.levels) levels.now }
{
    let count = space.levels();
    levels.iter().all(|level| *level < count)
}

/// These diagrams as parts.
pub(crate) fn parts_of(drawing: &Drawing, which: &[usize]) -> Result<Parts, MkFault>
    ensures { IfOk result (AreValid drawing.now) }
{
    let mut parts = Parts::new(drawing.space().allocator());
    for k in which {
        add(drawing.space(), &mut parts, drawing.at(*k))?;
    }
    Ok(parts)
}

// Adds a part to valid ones, up to a thousand.
fn add(space: &Space, parts: &mut Parts, part: Ref) -> Result<(), MkFault>
    requires parts { AreValid space.now parts.old }
    requires part { IsValid space.now part }
    ensures { AreValid space.now parts.new }
{
    if parts.len() < 1_000 {
        match parts.add(space, part) {
            Ok(()) => Ok(()),
            Err(_) => Err(MkFault::Memory),
        }
    } else {
        Err(MkFault::Full)
    }
}

// A plan that keeps these levels, where they are levels.
fn plan_keeping(space: &Space, parts: &Parts, keep: &[u32]) -> Result<Option<Schedule>, AllocError>
    requires { AreValid space.now parts.now }
    ensures { IfOk result (λ plan. IfSome plan (Fits space.now parts.now)) }
{
    if keep.len() < 100 && are_levels(space, keep) {
        let keep = LevelSet::of(space.allocator(), keep)?;
        let plan = schedule(space.allocator(), space, parts, &keep)?;
        Ok(Some(plan))
    } else {
        Ok(None)
    }
}

/// The image of a diagram under valid parts, by a plan that keeps these levels. It is the diagram itself where they are no
/// levels.
pub(crate) fn image_keeping(
    space: &mut Space,
    parts: &Parts,
    keep: &[u32],
    from: Ref,
) -> Result<Ref, MkFault>
    requires parts { AreValid space.old parts.now }
    requires from { IsValid space.old from }
    ensures valid { IfOk result (IsValid space.new) }
    ensures grows { Grows space.old space.new }
{
    match plan_keeping(space, parts, keep) {
        Ok(Some(plan)) => image(space, parts, &plan, from),
        Ok(None) => Ok(from),
        Err(_) => Err(MkFault::Memory),
    }
}

// Whether a set has these levels and no others.
fn has_levels(set: &LevelSet, levels: &[u32]) -> bool {
    let mut same = set.len() as usize == levels.len();
    for (k, level) in levels.iter().enumerate() {
        if k < 100 && set.at(k as u32) != Some(*level) {
            same = false;
        }
    }
    same
}

// Whether a plan that takes the parts in their order names these levels, before the first part and in each place.
fn names(plan: &Schedule, first: &[u32], hides: &[&[u32]]) -> bool {
    if plan.len() as usize != hides.len() || !has_levels(plan.first(), first) {
        return false;
    }
    for place in 0..plan.len() {
        if plan.part(place) != place || !has_levels(plan.hides(place), hides[place as usize]) {
            return false;
        }
    }
    true
}

// Whether a plan for these diagrams that keeps some levels names the others so.
fn is_planned(
    drawing: &Drawing,
    which: &[usize],
    keep: &[u32],
    first: &[u32],
    hides: &[&[u32]],
) -> bool {
    match parts_of(drawing, which) {
        Ok(parts) => match plan_keeping(drawing.space(), &parts, keep) {
            Ok(Some(plan)) => names(&plan, first, hides),
            Ok(None) => false,
            Err(_) => false,
        },
        Err(_) => false,
    }
}

// Whether the parts are these two, in their order.
fn are_two(parts: &Parts, first: Ref, second: Ref) -> bool {
    parts.len() == 2
        && parts.at(0) == Some(first)
        && parts.at(1) == Some(second)
        && parts.at(2) == None
}

// Two parts, and none.
fn is_kept_in_order(alloc: Global) -> Result<bool, MkFault> {
    let drawing = Drawing::of(alloc, 1, 100, &[Step::Node(0, 0, 1)])?;
    let none = parts_of(&drawing, &[])?;
    let two = parts_of(&drawing, &[2, 1])?;
    Ok(none.len() == 0 && none.at(0) == None && are_two(&two, drawing.at(2), drawing.at(1)))
}

#[test]
fn keeps_parts_in_order(rt: HostRuntime) -> Result<(), Fail> {
    assert!(rt; is_kept_in_order(rt.alloc())?);
    plans_fit_when_spaces_grow();
    Ok(())
}

// Whether a plan for three parts over four levels names these levels. The first, diagram 5, depends on levels 0 and 1, the
// second, diagram 6, on 1 and 2, and the third is 1. None depends on level 3.
fn names_last_parts(
    alloc: Global,
    keep: &[u32],
    first: &[u32],
    hides: &[&[u32]],
) -> Result<bool, MkFault> {
    let drawing = Drawing::of(
        alloc,
        4,
        100,
        &[
            Step::Node(0, 0, 1),
            Step::Node(1, 0, 1),
            Step::Node(2, 0, 1),
            Step::Or(2, 3),
            Step::And(3, 4),
        ],
    )?;
    Ok(is_planned(&drawing, &[5, 6, 1], keep, first, hides))
}

// Whether a plan for no parts names all levels but one before the first.
fn names_all_first(alloc: Global) -> Result<bool, MkFault> {
    let drawing = Drawing::of(alloc, 2, 100, &[])?;
    Ok(is_planned(&drawing, &[], &[1], &[0], &[]))
}

#[test]
fn names_each_level_at_its_last_part(rt: HostRuntime) -> Result<(), Fail> {
    let alloc = rt.alloc();
    assert!(rt; names_last_parts(alloc, &[], &[3], &[&[0], &[1, 2], &[]])?);
    assert!(rt; names_last_parts(alloc, &[1], &[3], &[&[0], &[2], &[]])?);
    assert!(rt; names_last_parts(alloc, &[3, 0], &[], &[&[], &[1, 2], &[]])?);
    assert!(rt; names_last_parts(alloc, &[0, 1, 2, 3], &[], &[&[], &[], &[]])?);
    assert!(rt; names_all_first(alloc)?);
    Ok(())
}

// Whether the image of a diagram under these parts is another one. Diagrams 2 and 3 are the bits at levels 0 and 1, 4 and 6
// their complements, and diagram 5 is the part of an inverter: the bit at level 1 is not that at level 0.
fn has_image(
    alloc: Global,
    parts: &[usize],
    keep: &[u32],
    from: usize,
    to: usize,
) -> Result<bool, MkFault> {
    let mut drawing = Drawing::of(
        alloc,
        2,
        100,
        &[
            Step::Node(0, 0, 1),
            Step::Node(1, 0, 1),
            Step::Not(3),
            Step::Ite(2, 4, 3),
            Step::Not(2),
        ],
    )?;
    drawing.image(parts, keep, from)?;
    Ok(drawing.has_same(&[(7, to)]))
}

// An inverter takes the one bit to the other, and no parts leave what is kept.
#[test]
fn takes_images(rt: HostRuntime) -> Result<(), Fail> {
    let alloc = rt.alloc();
    assert!(rt; has_image(alloc, &[5], &[1], 2, 4)?);
    assert!(rt; has_image(alloc, &[5], &[1], 6, 3)?);
    assert!(rt; has_image(alloc, &[], &[1], 2, 1)?);
    assert!(rt; has_image(alloc, &[], &[0], 2, 2)?);
    Ok(())
}

// The levels from 20 to 39.
const LOWER: [u32; 20] = [
    20, 21, 22, 23, 24, 25, 26, 27, 28, 29, 30, 31, 32, 33, 34, 35, 36, 37, 38, 39,
];

// The parts that say that a level is equal to the one twenty levels below.
const EQUAL: [usize; 20] = [
    5, 9, 13, 17, 21, 25, 29, 33, 37, 41, 45, 49, 53, 57, 61, 65, 69, 73, 77, 81,
];

// Draws them.
fn draw_equal(drawing: &mut Drawing) -> Result<(), MkFault> {
    for level in 0..20u32 {
        let upper = 2 + 4 * level as usize;
        drawing.draw(Step::Node(level, 0, 1))?;
        drawing.draw(Step::Node(level + 20, 0, 1))?;
        drawing.draw(Step::Not(upper + 1))?;
        drawing.draw(Step::Ite(upper, upper + 1, upper + 2))?;
    }
    Ok(())
}

// Hidden last, the conjunction of the twenty parts would have more than a million nodes.
fn stays_small(alloc: Global) -> Result<bool, MkFault> {
    let mut drawing = Drawing::of(alloc, 40, 100_000, &[])?;
    draw_equal(&mut drawing)?;
    drawing.image(&EQUAL, &LOWER, 1)?;
    Ok(drawing.has_same(&[(82, 1)]) && drawing.counts().2 <= 1_000)
}

#[test]
fn hides_early(rt: HostRuntime) -> Result<(), Fail> {
    assert!(rt; stays_small(rt.alloc())?);
    Ok(())
}

// An image and a conjunction that a full space has no place for.
fn is_filled(alloc: Global) -> Result<bool, MkFault> {
    let mut drawing = Drawing::of(
        alloc,
        2,
        3,
        &[
            Step::Node(1, 0, 1),
            Step::Node(1, 1, 0),
            Step::Node(0, 2, 3),
        ],
    )?;
    let refused = drawing.image(&[4], &[0, 1], 2) == Err(MkFault::Full);
    Ok(refused && drawing.is_full(Step::Lift(4, 2)) && drawing.counts() == (2, 3, 3, 3))
}

#[test]
fn fills_the_space(rt: HostRuntime) -> Result<(), Fail> {
    assert!(rt; is_filled(rt.alloc())?);
    Ok(())
}
