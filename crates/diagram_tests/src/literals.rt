//! Calls that ask on which levels a diagram depends: renaming, and the least bits.

ghost use Rattle.std.specs.Prelude.{◌≡◌, ◌<◌, ◌∷◌, [], length, IfOk};
ghost use Rattle.node_table.specs.Table.{IsTable, IsValid, Grows};
ghost use Rattle.bdd_ops.specs.Meaning.{StandsFor, DependsOn};
ghost use Rattle.bdd_ops.specs.Levels.{IsSetOf};

use bdd_ops::{Code, LevelMap, LevelSet, ite, not, rename};
use bdd_walk::least;
use node_table::{MkFault, Ref, Space};
use std::alloc::Global;
use std::test::Fail;

// The bit at a level.
fn literal(space: &mut Space, level: u32) -> Result<Ref, MkFault>
    requires level { level < space.old.levels }
    ensures ok { IfOk result (λ r. StandsFor space.new r (λ bits. bits level)) }
    ensures grows { Grows space.old space.new }
    ensures levels { space.new.levels ≡ space.old.levels }
{
    let zero = space.zero();
    let one = space.one();
    space.mk(level, zero, one)
}

// A space with three levels.
fn three_levels(alloc: Global) -> Result<Space, MkFault>
    ensures { IfOk result (λ space. IsTable space × (space.levels ≡ 3)) }
{
    match Space::with_limit(alloc, 100) {
        Ok(space) => {
            let mut space = space;
            let _first = space.push_levels(3);
            Ok(space)
        }
        Err(_) => Err(MkFault::Memory),
    }
}

fn set_of(alloc: Global, levels: &[u32]) -> Result<LevelSet, MkFault>
    requires { length levels.now < 100 }
    ensures { IfOk result (IsSetOf levels.now) }
{
    match LevelSet::of(alloc, levels) {
        Ok(set) => Ok(set),
        Err(_) => Err(MkFault::Memory),
    }
}

// The map that takes level 0 to level 1.
fn one_pair(alloc: Global) -> Result<LevelMap, MkFault>
    ensures { IfOk result (λ map. map ≡ (0, 1) ∷ []) }
{
    match LevelMap::of(alloc, &[(0, 1)]) {
        Ok(map) => Ok(map),
        Err(_) => Err(MkFault::Memory),
    }
}

// Whether the bit at level 0, read through a map, is the one at level 1.
fn renames(alloc: Global) -> Result<bool, MkFault> {
    let mut space = three_levels(alloc)?;
    let x = literal(&mut space, 0)?;
    let map = one_pair(alloc)?;
    let renamed = rename(&mut space, x, &map)?;
    let y = literal(&mut space, 1)?;
    Ok(renamed == y)
}

#[test]
fn renames_a_level(rt: HostRuntime) -> Result<(), Fail> {
    assert!(rt; renames(rt.alloc())?);
    Ok(())
}

// The diagram that is 1 where the bits at levels 0 and 1 are equal.
fn equal_bits(space: &mut Space) -> Result<Ref, MkFault>
    requires { space.old.levels ≡ 3 }
    ensures depends { IfOk result (λ r. DependsOn space.new (0 ∷ 1 ∷ []) r) }
    ensures valid { IfOk result (IsValid space.new) }
{
    let x = literal(space, 0)?;
    let y = literal(space, 1)?;
    let not_y = not(space, y)?;
    ite(space, x, y, not_y)
}

// Whether the code begins with these bits.
fn begins(code: Option<Code>, bits: [bool; 3]) -> bool {
    match code {
        Some(code) => code.bit(0) == bits[0] && code.bit(1) == bits[1] && code.bit(2) == bits[2],
        None => false,
    }
}

// The least bits at the levels 0, 2 and 7 at which the bit of level 2 is 1. Levels 0 and 7 aren't asked, and no diagram can
// ask level 7.
fn least_of_one(alloc: Global) -> Result<bool, MkFault> {
    let mut space = three_levels(alloc)?;
    let z = literal(&mut space, 2)?;
    let levels = set_of(alloc, &[0, 2, 7])?;
    if levels.len() > 3 {
        return Ok(false);
    }
    Ok(begins(least(&space, z, &levels), [false, true, false]))
}

// The least bits at the levels 0 and 1 that are equal: the smaller of the two ends that reach the constant 1 comes first.
fn least_of_two(alloc: Global) -> Result<bool, MkFault> {
    let mut space = three_levels(alloc)?;
    let equal = equal_bits(&mut space)?;
    let levels = set_of(alloc, &[1, 0])?;
    if levels.len() > 2 {
        return Ok(false);
    }
    Ok(begins(least(&space, equal, &levels), [false, false, false]))
}

// Of a constant nothing is asked.
fn has_least(alloc: Global, value: bool) -> Result<bool, MkFault> {
    let space = three_levels(alloc)?;
    let levels = set_of(alloc, &[])?;
    if levels.len() > 0 {
        return Ok(false);
    }
    let constant = if value { space.one() } else { space.zero() };
    Ok(least(&space, constant, &levels).is_some())
}

#[test]
fn finds_the_least_bits(rt: HostRuntime) -> Result<(), Fail> {
    let alloc = rt.alloc();
    assert!(rt; least_of_one(alloc)?);
    assert!(rt; least_of_two(alloc)?);
    assert!(rt; has_least(alloc, true)?);
    assert!(rt; !has_least(alloc, false)?);
    Ok(())
}
