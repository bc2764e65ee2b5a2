//! The operation that renames levels.

ghost use Rattle.std.specs.Prelude.{◌≡◌, length, Err, IfOk};
ghost use Rattle.node_table.specs.Table.{value_at, top_of, IsValid, Grows};
ghost use Rattle.bdd_ops.specs.Levels.{sources, target_or, renamed, IsRisingMap, TargetsWithin};
ghost use Rattle.bdd_ops.specs.Meaning.{StandsFor, DependsOn, IsMissing};
ghost use Rattle.bdd_ops.specs.Recursion.{StandsBelow, IsRight, IsRenamed};

use crate::choice::Choice;
use crate::level_map::LevelMap;
use crate::memo::Memo;
use node_table::{MkFault, Ref, Space};

/// The diagram with the value of `f` at the bits that are read through the map: it asks the bit at the target of a
/// level where `f` asks the one at the level. Takes about one step for each node of `f`.
pub fn rename(space: &mut Space, f: Ref, map: &LevelMap) -> Result<Ref, MkFault>
    requires f { IsValid space.old f }
    requires rising { IsRisingMap map.now }
    requires covered { DependsOn space.old (sources map.now) f }
    requires within { TargetsWithin space.old.levels map.now }
    ensures ok { IfOk result (λ r. StandsFor space.new r (λ bits. value_at space.old f (renamed map.now bits))) }
    ensures grows { Grows space.old space.new }
    ensures levels { space.new.levels ≡ space.old.levels }
    ensures full { result ≡ Err MkFault.Full → length space.new.nodes ≡ space.new.limit }
    ensures needed { result ≡ Err MkFault.Full → IsMissing space.new (λ bits. value_at space.old f (renamed map.now bits)) }
{
    let mut memo = Memo::new(space.allocator());
    rename_below(space, &mut memo, f, map)
}

// `rename` with the answers so far, which stand at f, f, f.
fn rename_below(space: &mut Space, memo: &mut Memo, f: Ref, map: &LevelMap) -> Result<Ref, MkFault>
    requires f { IsValid space.old f }
    requires rising { IsRisingMap map.now }
    requires covered { DependsOn space.old (sources map.now) f }
    requires within { TargetsWithin space.old.levels map.now }
    requires memo { IsRight (IsRenamed map.now) space.old memo.old }
    ensures ok { IfOk result (λ r. StandsBelow space.new (target_or space.old.levels map.now (top_of space.old f)) r (λ bits. value_at space.old f (renamed map.now bits))) }
    ensures grows { Grows space.old space.new }
    ensures levels { space.new.levels ≡ space.old.levels }
    ensures full { result ≡ Err MkFault.Full → length space.new.nodes ≡ space.new.limit }
    ensures needed { result ≡ Err MkFault.Full → IsMissing space.new (λ bits. value_at space.old f (renamed map.now bits)) }
    ensures memo { IsRight (IsRenamed map.now) space.new memo.new }
{
    let Some(level) = space.level(f) else {
        return Ok(f);
    };
    let key = Choice { f, g: f, h: f };
    if let Some(r) = memo.recall(&key) {
        return Ok(r);
    }
    let Some(to) = map.target(level) else {
        unreachable!();
    };
    let f0 = space.lo(f);
    let f1 = space.hi(f);
    let lo = rename_below(space, memo, f0, map)?;
    let hi = rename_below(space, memo, f1, map)?;
    let r = space.mk(to, lo, hi)?;
    memo.note(&key, r)?;
    Ok(r)
}
