//! Relations of shift registers. The first latches have for their next bits those of the letter, and each other latch has
//! what the latch stands at that lies as many places before it as a letter has bits.
//!
//! The levels of the letter are the topmost. Below them each latch has two, that of its present bit and that of its next one.

ghost use Rattle.std.specs.Prelude.{◌≡◌, ◌+◌, ◌*◌, ◌<◌, ◌≤◌, IfOk};
ghost use Rattle.std.specs.List.{range_with_len};
ghost use Rattle.node_table.specs.Table.{IsValid, Grows};
ghost use Rattle.bdd_ops.specs.Meaning.{StandsFor};
ghost use Rattle.part_relation.specs.Plans.{AreValid};
ghost use Rattle.subset_build.specs.Relations.{present_of, Reads};
ghost use Rattle.bench_automata.specs.Registers.{latch_levels, source_of, copies, AreCopies, IsBit};

use bdd_ops::{LevelMap, LevelSet};
use node_table::{MAX_LEVELS, MkFault, Ref, Space};
use part_relation::Parts;
use std::alloc::{AllocError, Global};

/// The levels of the letter.
pub(crate) fn letter_levels(alloc: Global, letters: u32) -> Result<LevelSet, AllocError>
    requires { letters ≤ MAX_LEVELS }
    ensures { IfOk result (λ levels. levels ≡ range_with_len 0 letters) }
{
    let mut levels = Vec::new(alloc);
    for level in 0..letters {
        levels.push(level)?;
    }
    LevelSet::of(alloc, &levels)
}

/// The map that takes the next bit of each latch to the present one.
pub(crate) fn state_map(alloc: Global, letters: u32, latches: u32) -> Result<LevelMap, AllocError>
    requires { letters + 2 * latches ≤ MAX_LEVELS }
    ensures { IfOk result (λ map. map ≡ latch_levels letters latches) }
{
    let mut pairs = Vec::new(alloc);
    for latch in 0..latches {
        let present = letters + 2 * latch;
        pairs.push((present + 1, present))?;
    }
    LevelMap::of(alloc, &pairs)
}

/// The state in which each latch is 0.
pub(crate) fn all_zero(space: &mut Space, letters: u32, latches: u32) -> Result<Ref, MkFault>
    requires few { letters + 2 * latches ≤ MAX_LEVELS }
    requires levels { letters + 2 * latches ≤ space.old.levels }
    ensures ok { IfOk result (Reads space.new (present_of (latch_levels letters latches))) }
    ensures grows { Grows space.old space.new }
    ensures levels { space.new.levels ≡ space.old.levels }
{
    let mut all = space.one();
    let mut latch = latches;
    while latch > 0 {
        latch -= 1;
        let zero = space.zero();
        all = space.mk(letters + 2 * latch, all, zero)?;
    }
    Ok(all)
}

/// A part for each latch: its next bit is the one that it copies.
pub(crate) fn copying_parts(space: &mut Space, letters: u32, latches: u32) -> Result<Parts, MkFault>
    requires few { letters + 2 * latches ≤ MAX_LEVELS }
    requires levels { letters + 2 * latches ≤ space.old.levels }
    ensures ok { IfOk result (AreCopies space.new letters latches) }
    ensures valid { IfOk result (AreValid space.new) }
    ensures grows { Grows space.old space.new }
    ensures levels { space.new.levels ≡ space.old.levels }
{
    let mut parts = Parts::new(space.allocator());
    for latch in 0..latches {
        let next = letters + 2 * latch + 1;
        let part = copy_of(space, source(letters, latch), next)?;
        if parts.add(space, part).is_err() {
            return Err(MkFault::Memory);
        }
    }
    Ok(parts)
}

// The level of the bit that a latch copies.
fn source(letters: u32, latch: u32) -> u32
    requires { letters + 2 * latch ≤ MAX_LEVELS }
    ensures source { result ≡ source_of letters latch }
    ensures above { result < letters + 2 * latch + 1 }
{
    if latch < letters {
        latch
    } else {
        2 * latch - letters
    }
}

// The diagram that is 1 where the bits of two levels are equal.
fn copy_of(space: &mut Space, from: u32, to: u32) -> Result<Ref, MkFault>
    requires order { from < to }
    requires levels { to < space.old.levels }
    ensures ok { IfOk result (λ part. StandsFor space.new part (copies from to)) }
    ensures grows { Grows space.old space.new }
    ensures levels { space.new.levels ≡ space.old.levels }
{
    let bit = bit_of(space, to, true)?;
    let other = bit_of(space, to, false)?;
    space.mk(from, other, bit)
}

// The diagram that is 1 where the bit of a level is this one.
fn bit_of(space: &mut Space, level: u32, bit: bool) -> Result<Ref, MkFault>
    requires { level < space.old.levels }
    ensures ok { IfOk result (IsBit space.new level bit) }
    ensures grows { Grows space.old space.new }
    ensures levels { space.new.levels ≡ space.old.levels }
{
    let zero = space.zero();
    let one = space.one();
    if bit {
        space.mk(level, zero, one)
    } else {
        space.mk(level, one, zero)
    }
}
