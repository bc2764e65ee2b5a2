//! A plan that names each level to hide at the last part that depends on it.

ghost use Rattle.std.specs.Prelude.{◌≡◌, ◌<◌, ◌^◌, ◌&&◌, ℕ, not, true, false, [], length, slice_index, slice_index_or, All, IfOk};
ghost use Rattle.bdd_ops.specs.Levels.{is_in};
ghost use Rattle.node_table.specs.Table.{IsTable};
ghost use Rattle.part_relation.specs.Plans.{AreValid, Fits, named_by};
ghost use Rattle.part_relation.specs.Supports.{is_marked, AreTurns, ArePutOff, AreOfTurn};

use crate::parts::Parts;
use crate::schedules::Schedule;
use crate::supports::support;
use bdd_ops::LevelSet;
use node_table::Space;
use std::alloc::{AllocError, Global};

/// A plan that hides all levels of the space but these. It takes the parts in the order in which they were added. Each node
/// of each part is looked at once.
pub fn schedule(
    alloc: Global,
    space: &Space,
    parts: &Parts,
    keep: &LevelSet,
) -> Result<Schedule, AllocError>
    requires parts { AreValid space.now parts.now }
    requires keep { All (λ level. level < space.now.levels) keep.now }
    ensures fits { IfOk result (Fits space.now parts.now) }
    ensures keep { IfOk result (λ plan. (level : ℕ) → level < space.now.levels → is_in (named_by plan) level ≡ not (is_in keep.now level)) }
{
    let turns = turns_of(alloc, space, parts)?;
    let kept = marks_of(alloc, space, keep)?;
    let first = levels_at(alloc, &turns, &kept, 0)?;
    let mut order = Vec::new(alloc);
    let mut hides = Vec::new(alloc);
    for place in 0..parts.len() {
        order.push(place)?;
        hides.push(levels_at(alloc, &turns, &kept, place + 1)?)?;
    }
    Ok(Schedule::of(order, first, hides))
}

// By level, the turn at which it is hidden: 0 where no part depends on it, and else one more than the place of the last
// part that does.
fn turns_of(alloc: Global, space: &Space, parts: &Parts) -> Result<Vec<u32>, AllocError>
    requires { AreValid space.now parts.now }
    ensures turns { IfOk result (λ turns. AreTurns space.now parts.now (length parts.now) turns.items) }
    ensures few { IfOk result (λ turns. length turns.items < 2 ^ 32) }
{
    let mut turns = vec![in alloc; 0; space.levels() as usize]?;
    for (place, part) in parts.refs().iter().enumerate() {
        let marks = support(alloc, space, *part)?;
        put_off(&mut turns, &marks, place as u32 + 1);
    }
    Ok(turns)
}

// The marked levels are hidden at this turn and no sooner.
fn put_off(turns: &mut [u32], marks: &[bool], turn: u32)
    requires { length marks.now ≡ length turns.old }
    ensures { ArePutOff turns.old marks.now turn (length marks.now) turns.new }
{
    for (level, mark) in marks.iter().enumerate() {
        if *mark {
            turns[level] = turn;
        }
    }
}

// These levels, as marks by level.
fn marks_of(alloc: Global, space: &Space, levels: &LevelSet) -> Result<Vec<bool>, AllocError>
    requires { All (λ level. level < space.now.levels) levels.now }
    ensures len { IfOk result (λ marks. length marks.items ≡ space.now.levels) }
    ensures marks { IfOk result (λ marks. (level : ℕ) → is_marked marks.items level ≡ is_in levels.now level) }
{
    let mut marks = vec![in alloc; false; space.levels() as usize]?;
    for k in 0..levels.len() {
        match levels.at(k) {
            Some(level) => marks[level as usize] = true,
            None => unreachable!(),
        }
    }
    Ok(marks)
}

// The levels of this turn that are not kept.
fn levels_at(alloc: Global, turns: &[u32], kept: &[bool], turn: u32) -> Result<LevelSet, AllocError>
    requires len { length kept.now ≡ length turns.now }
    requires few { length turns.now < 2 ^ 32 }
    ensures { IfOk result (AreOfTurn turns.now kept.now turn (length turns.now)) }
{
    let mut levels = Vec::new(alloc);
    for (level, own) in turns.iter().enumerate() {
        if *own == turn && !kept[level] {
            levels.push(level as u32)?;
        }
    }
    LevelSet::of(alloc, &levels)
}
