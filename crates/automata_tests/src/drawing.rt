//! Diagrams drawn by patterns, in a space of seven levels. A pattern has `0`, `1` or `-` for each level from the topmost on,
//! as many as it needs, and a diagram is 1 where the bits are those of one of its patterns. A pattern takes a node for each bit
//! that it asks, and a union the nodes that it has beside those of its patterns.

ghost use Rattle.std.specs.Prelude.{◌≡◌, ◌+◌, ◌≤◌, IfOk, IsTrue};
ghost use Rattle.std.specs.List.{range_with_len};
ghost use Rattle.node_table.specs.Table.{top_of, IsTable, IsValid, Grows};
ghost use Rattle.automata_tests.specs.Drawings.{AsksBetween};

use bdd_ops::{LevelSet, or};
use node_table::{MkFault, Ref, Space};
use std::alloc::{AllocError, Global};

/// A space with seven levels, which may hold so many nodes.
pub(crate) fn seven_levels(alloc: Global, limit: u32) -> Result<Space, AllocError>
    ensures { IfOk result (λ space. IsTable space × (space.levels ≡ 7)) }
{
    let mut space = Space::with_limit(alloc, u64::from(limit))?;
    let _first = space.push_levels(7);
    Ok(space)
}

// The level of a diagram; that of a constant is the number of levels.
fn top(space: &Space, r: Ref) -> u32
    requires { IsValid space.now r }
    ensures top { result ≡ top_of space.now r }
    ensures within { result ≤ space.now.levels }
{
    match space.level(r) {
        Some(level) => level,
        None => space.levels(),
    }
}

// The bits of a diagram that have this sign at a level above it, and none where the level lies elsewhere.
fn with_sign(space: &mut Space, level: usize, sign: u8, below: Ref) -> Result<Ref, MkFault>
    requires { IsValid space.old below }
    ensures valid { IfOk result (IsValid space.new) }
    ensures grows { Grows space.old space.new }
    ensures levels { space.new.levels ≡ space.old.levels }
{
    let zero = space.zero();
    if level >= top(space, below) as usize {
        return Ok(zero);
    }
    match sign {
        b'0' => space.mk(level as u32, below, zero),
        b'1' => space.mk(level as u32, zero, below),
        _ => Ok(below),
    }
}

// The bits of one pattern: a node for each level that it asks.
fn cube(space: &mut Space, pattern: &str) -> Result<Ref, MkFault>
    ensures valid { IfOk result (IsValid space.new) }
    ensures grows { Grows space.old space.new }
    ensures levels { space.new.levels ≡ space.old.levels }
{
    let signs = pattern.as_bytes();
    let mut cube = space.one();
    for level in (0..signs.len()).rev() {
        cube = with_sign(space, level, signs[level], cube)?;
    }
    Ok(cube)
}

/// The diagram of these patterns; it is the constant 0 where there are none.
pub(crate) fn drawn(space: &mut Space, patterns: &str) -> Result<Ref, MkFault>
    ensures valid { IfOk result (IsValid space.new) }
    ensures grows { Grows space.old space.new }
    ensures levels { space.new.levels ≡ space.old.levels }
{
    let mut set = space.zero();
    for pattern in patterns.split_whitespace() {
        let one = cube(space, pattern)?;
        set = or(space, set, one)?;
    }
    Ok(set)
}

/// Whether the diagram asks only levels from `first` on that lie above `end`.
pub(crate) fn asks_between(space: &Space, r: Ref, first: u32, end: u32) -> bool
    requires { IsValid space.now r }
    ensures { IsTrue result → AsksBetween space.now first end r }
{
    let Some(level) = space.level(r) else {
        return true;
    };
    if level < first || level >= end {
        return false;
    }
    asks_between(space, space.lo(r), first, end) && asks_between(space, space.hi(r), first, end)
}

/// So many levels from this one on.
pub(crate) fn levels_from(alloc: Global, first: u32, count: u32) -> Result<LevelSet, AllocError>
    requires first { first ≤ 100 }
    requires few { count ≤ 100 }
    ensures { IfOk result (λ levels. levels ≡ range_with_len first count) }
{
    let mut levels = Vec::new(alloc);
    for level in first..first + count {
        levels.push(level)?;
    }
    LevelSet::of(alloc, &levels)
}
