//! What is left of a diagram where its first levels are fixed.

ghost use Rattle.std.specs.Prelude.{◌≡◌, map, IfOk, OnOk};
ghost use Rattle.node_table.specs.Table.{IsValid};
ghost use Rattle.bdd_walk.specs.Cuts.{IsCut};
ghost use Rattle.bdd_walk.specs.Walk.{ends_of, put_all, AreMet};

use indexmap::IndexSet;
use node_table::{Ref, Space};
use std::alloc::{AllocError, Global};

/// The different refs that `f` leaves where all levels above `level` are fixed, in the order of the least bits that leave
/// them. Each node of `f` above the level is gone through once.
pub fn cut(alloc: Global, space: &Space, f: Ref, level: u32) -> Result<Vec<Ref>, AllocError>
    requires { IsValid space.now f }
    ensures { IfOk result (λ refs. IsCut space.now level f refs.items) }
{
    let mut met = IndexSet::new(alloc);
    let mut left = IndexSet::new(alloc);
    gather(space, f, level, &mut met, &mut left)?;
    Vec::from_slice(alloc, left.as_slice())
}

// Puts what `r` leaves below the level to what is left so far. `met` are the nodes above the level that were gone through.
fn gather(
    space: &Space,
    r: Ref,
    level: u32,
    met: &mut IndexSet<Ref>,
    left: &mut IndexSet<Ref>,
) -> Result<(), AllocError>
    requires valid { IsValid space.now r }
    requires met { AreMet level space.now.nodes met.old.keys left.old.keys }
    ensures left { OnOk result (left.new.keys ≡ put_all left.old.keys (ends_of level space.now.nodes r)) }
    ensures met { OnOk result (AreMet level space.now.nodes met.new.keys left.new.keys) }
{
    match space.level(r) {
        Some(own) if own < level => {
            if met.contains(&r) {
                return Ok(());
            }
            gather(space, space.lo(r), level, met, left)?;
            gather(space, space.hi(r), level, met, left)?;
            met.insert(r)?;
        }
        _ => {
            left.insert(r)?;
        }
    }
    Ok(())
}
