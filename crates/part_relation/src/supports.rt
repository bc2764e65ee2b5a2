//! The support of a diagram: the levels that it depends on, which are those of the nodes that it reaches.

ghost use Rattle.std.specs.Prelude.{◌≡◌, length, IfOk, OnOk};
ghost use Rattle.node_table.specs.Table.{IsValid};
ghost use Rattle.part_relation.specs.Supports.{IsCovered, AreCovered, AreMarked, IsSupport};

use crate::seen::Seen;
use node_table::{Ref, Space};
use std::alloc::{AllocError, Global};

/// The levels that a diagram depends on, as a mark for each level of the space. Each node that it reaches is looked at
/// once.
pub(crate) fn support(alloc: Global, space: &Space, r: Ref) -> Result<Vec<bool>, AllocError>
    requires { IsValid space.now r }
    ensures { IfOk result (λ marks. IsSupport space.now r marks.items) }
{
    let mut marks = vec![in alloc; false; space.levels() as usize]?;
    let mut seen = Seen::new(alloc);
    mark(space, &mut seen, &mut marks, r)?;
    Ok(marks)
}

// Marks the levels that the diagram depends on. What was seen has its levels marked already.
fn mark(space: &Space, seen: &mut Seen, marks: &mut [bool], r: Ref) -> Result<(), AllocError>
    requires r { IsValid space.now r }
    requires levels { length marks.old ≡ space.now.levels }
    requires seen { AreCovered space.now marks.old seen.old }
    ensures covered { OnOk result (IsCovered space.now marks.new r) }
    ensures seen { OnOk result (AreCovered space.now marks.new seen.new) }
    ensures marked { OnOk result (AreMarked space.now r marks.old marks.new) }
{
    if seen.has(r) {
        return Ok(());
    }
    match space.level(r) {
        Some(level) => {
            marks[level as usize] = true;
            mark(space, seen, marks, space.lo(r))?;
            mark(space, seen, marks, space.hi(r))?;
            seen.note(r)?;
            Ok(())
        }
        None => Ok(()),
    }
}
