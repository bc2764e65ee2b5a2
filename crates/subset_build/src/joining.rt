//! Small parts, joined once so that each step takes fewer.

ghost use Rattle.std.specs.Prelude.{◌≡◌, ◌++◌, ◌∷◌, ◌&&◌, [], length, Err, IfOk, IfSome, OnOk, OnErr};
ghost use Rattle.node_table.specs.Table.{Bits, value_at, IsValid, Grows};
ghost use Rattle.bdd_ops.specs.Meaning.{StandsFor};
ghost use Rattle.part_relation.specs.Plans.{all_hold, AreValid};

use bdd_ops::and;
use indexmap::IndexSet;
use node_table::{MkFault, Ref, Space};
use part_relation::Parts;

/// The most nodes of a part that is joined to another one.
const FEW_NODES: usize = 64;

/// Parts that stand for the same. Those that are small, and lie side by side, are one part as long as it stays small.
pub(crate) fn join_small(space: &mut Space, parts: &Parts) -> Result<Parts, MkFault>
    requires { AreValid space.old parts.now }
    ensures valid { IfOk result (AreValid space.new) }
    ensures same { IfOk result (λ joined. (bits : Bits) → all_hold space.new joined bits ≡ all_hold space.old parts.now bits) }
    ensures grows { Grows space.old space.new }
    ensures levels { space.new.levels ≡ space.old.levels }
    ensures full { result ≡ Err MkFault.Full → length space.new.nodes ≡ space.new.limit }
{
    let mut joined = Parts::new(space.allocator());
    let mut last = space.one();
    for k in 0..parts.len() {
        let Some(part) = parts.at(k) else {
            unreachable!();
        };
        match join(space, last, part)? {
            Some(both) => last = both,
            None => {
                add(space, &mut joined, last)?;
                last = part;
            }
        }
    }
    add(space, &mut joined, last)?;
    Ok(joined)
}

// The conjunction of two parts where they and it are small, or where it is the second of them.
fn join(space: &mut Space, f: Ref, g: Ref) -> Result<Option<Ref>, MkFault>
    requires f { IsValid space.old f }
    requires g { IsValid space.old g }
    ensures ok { IfOk result (λ joined. IfSome joined (λ r. StandsFor space.new r (λ bits. value_at space.old f bits && value_at space.old g bits))) }
    ensures grows { Grows space.old space.new }
    ensures levels { space.new.levels ≡ space.old.levels }
    ensures full { result ≡ Err MkFault.Full → length space.new.nodes ≡ space.new.limit }
{
    if f != Ref::ONE && !(is_small(space, f)? && is_small(space, g)?) {
        return Ok(None);
    }
    let both = and(space, f, g)?;
    if both == g || is_small(space, both)? {
        Ok(Some(both))
    } else {
        Ok(None)
    }
}

// Puts a part behind the others.
fn add(space: &Space, parts: &mut Parts, part: Ref) -> Result<(), MkFault>
    requires { IsValid space.now part }
    ensures ok { OnOk result (parts.new ≡ parts.old ++ part ∷ []) }
    ensures err { OnErr result (result ≡ Err MkFault.Memory) }
{
    if parts.len() == u32::MAX {
        return Err(MkFault::Memory);
    }
    match parts.add(space, part) {
        Ok(()) => Ok(()),
        Err(_) => Err(MkFault::Memory),
    }
}

// Whether a diagram has few nodes.
fn is_small(space: &Space, f: Ref) -> Result<bool, MkFault>
    requires { IsValid space.now f }
    ensures { OnErr result (result ≡ Err MkFault.Memory) }
{
    let mut seen = IndexSet::new(space.allocator());
    look(space, &mut seen, f)?;
    Ok(seen.len() <= FEW_NODES)
}

// Puts the nodes of a diagram to those that were seen, until they are too many.
fn look(space: &Space, seen: &mut IndexSet<Ref>, f: Ref) -> Result<(), MkFault>
    requires { IsValid space.now f }
    ensures { OnErr result (result ≡ Err MkFault.Memory) }
{
    if seen.len() > FEW_NODES || seen.contains(&f) || space.level(f).is_none() {
        return Ok(());
    }
    match seen.insert(f) {
        Ok(_) => {
            look(space, seen, space.lo(f))?;
            look(space, seen, space.hi(f))
        }
        Err(_) => Err(MkFault::Memory),
    }
}
