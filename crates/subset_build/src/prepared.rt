//! What is made once for all steps of a construction.

ghost use Rattle.std.specs.Prelude.{◌≡◌, ◌<◌, ◌-◌, ◌^◌, ◌++◌, ◌||◌, ℕ, All, IfOk};
ghost use Rattle.std.specs.List.Sorted.{IsStrictlyIncreasing};
ghost use Rattle.bdd_ops.specs.Levels.{is_in, sources};
ghost use Rattle.part_relation.specs.Plans.{AreValid};
ghost use Rattle.subset_build.specs.Relations.{AreInOrder};
ghost use Rattle.subset_build.specs.Preparing.{at_itself, IsPrepared, IsLevelBelow};

use bdd_ops::{LevelMap, LevelSet};
use node_table::Space;
use part_relation::{Parts, Schedule, schedule};
use std::alloc::{AllocError, Global};

/// A plan that keeps the letters and the next states; the map that takes a next state to a present one and leaves a letter
/// as it is; and the level that all letters lie above, and all states below.
#[derive(Drop)]
pub(crate) struct Prepared {
    pub(crate) plan: Schedule,
    pub(crate) map: LevelMap,
    pub(crate) level: u32,
}

impl Prepared {
    /// What the steps of these parts need.
    pub(crate) fn of(
        space: &Space,
        parts: &Parts,
        keep: &LevelSet,
        state: &LevelMap,
    ) -> Result<Prepared, AllocError>
        requires parts { AreValid space.now parts.now }
        requires order { AreInOrder space.now.levels keep.now state.now }
        ensures { IfOk result (IsPrepared space.now parts.now keep.now state.now) }
    {
        let alloc = space.allocator();
        let kept = kept_levels(alloc, keep, state)?;
        let plan = schedule(alloc, space, parts, &kept)?;
        let map = whole_map(alloc, keep, state)?;
        Ok(Prepared {
            plan,
            map,
            level: level_below(keep),
        })
    }
}

// The levels of the letters and of the next states.
fn kept_levels(alloc: Global, keep: &LevelSet, state: &LevelMap) -> Result<LevelSet, AllocError>
    ensures { IfOk result (λ kept. (k : ℕ) → is_in kept k ≡ (is_in keep.now k || is_in (sources state.now) k)) }
{
    let mut levels = Vec::new(alloc);
    for k in 0..keep.len() {
        let Some(level) = keep.at(k) else {
            unreachable!();
        };
        levels.push(level)?;
    }
    for k in 0..state.len() {
        let Some(pair) = state.at(k) else {
            unreachable!();
        };
        levels.push(pair.0)?;
    }
    if levels.len() > u32::MAX as usize {
        return Err(AllocError);
    }
    LevelSet::of(alloc, &levels)
}

// The map that takes each letter's level to itself, and a next state's to that of the present one.
fn whole_map(alloc: Global, keep: &LevelSet, state: &LevelMap) -> Result<LevelMap, AllocError>
    ensures { IfOk result (λ whole. whole ≡ at_itself keep.now ++ state.now) }
{
    let mut pairs = Vec::new(alloc);
    for k in 0..keep.len() {
        let Some(level) = keep.at(k) else {
            unreachable!();
        };
        pairs.push((level, level))?;
    }
    for k in 0..state.len() {
        let Some(pair) = state.at(k) else {
            unreachable!();
        };
        pairs.push(pair)?;
    }
    if pairs.len() > u32::MAX as usize {
        return Err(AllocError);
    }
    LevelMap::of(alloc, &pairs)
}

// One more than the last of these levels, or 0.
fn level_below(levels: &LevelSet) -> u32
    requires { All (λ level. level < 2 ^ 32 - 1) levels.now }
    ensures level { IsLevelBelow levels.now result }
    ensures rises { IsStrictlyIncreasing levels.now }
{
    let len = levels.len();
    if len == 0 {
        return 0;
    }
    match levels.at(len - 1) {
        Some(last) => last + 1,
        None => unreachable!(),
    }
}
