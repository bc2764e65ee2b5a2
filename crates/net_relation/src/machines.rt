//! The diagrams of machines.

ghost use Rattle.std.specs.Prelude.{◌≡◌, ◌∷◌, [], length, IfOk, IfErr};
ghost use Rattle.node_table.specs.Table.{Grows};
ghost use Rattle.bdd_ops.specs.Meaning.{StandsFor};
ghost use Rattle.mv_encoding.specs.Spots.{StandsForValues, spot_at};
ghost use Rattle.machine_parts.specs.MachineParts.{machine_value};
ghost use Rattle.net_model.specs.Machines.{machine_of, IsSoundMachine};
ghost use Rattle.net_model.specs.Outlines.{outline_of};
ghost use Rattle.net_frame.specs.Frames.{spots_in};
ghost use Rattle.net_frame.specs.Placing.{IsPlaced};
ghost use Rattle.part_relation.specs.Steps.{StandsForSteps};
ghost use Rattle.det_core.specs.Faults.{IsLimit};
ghost use Rattle.net_relation.specs.Relations.{AreFor, MovesOf, step_code};

use crate::adding::add;
use det_core::SolveFault;
use machine_parts::machine_part;
use net_frame::Frame;
use net_model::{Machine, Slot};
use node_table::{Ref, Space};
use part_relation::Parts;

/// The steps of a machine: one part, from all its rows.
pub(crate) fn parts_of_machine(
    space: &mut Space,
    frame: &Frame,
    slot: Slot,
    machine: &Machine,
) -> Result<Parts, SolveFault>
    requires sound { IsSoundMachine (machine_of machine.now) }
    requires placed { IsPlaced space.old (outline_of (machine_of machine.now)) (spots_in frame.now slot) }
    ensures steps { IfOk result (λ parts. StandsForSteps space.new parts (step_code (spots_in frame.now slot)) (MovesOf (machine_of machine.now))) }
    ensures parts { IfOk result (λ parts. AreFor space.new parts (machine_value (spots_in frame.now slot).letters (spot_at (spots_in frame.now slot).present 0) (spot_at (spots_in frame.now slot).next 0) (machine_of machine.now) ∷ [])) }
    ensures grows { Grows space.old space.new }
    ensures levels { space.new.levels ≡ space.old.levels }
    ensures limit { IfErr result (IsLimit space.new (λ states. states ≡ 0)) }
{
    let columns = frame.letter_codings(slot);
    let present = &frame.present_codings(slot)[0];
    let next = &frame.next_codings(slot)[0];
    let mut parts = Parts::new(space.allocator());
    let steps = machine_part(space, columns, present, next, machine);
    add(space, &mut parts, steps)?;
    Ok(parts)
}

/// The state in which a machine starts.
pub(crate) fn initial_of_machine(
    space: &mut Space,
    frame: &Frame,
    slot: Slot,
    machine: &Machine,
) -> Result<Ref, SolveFault>
    requires sound { IsSoundMachine (machine_of machine.now) }
    requires placed { IsPlaced space.old (outline_of (machine_of machine.now)) (spots_in frame.now slot) }
    ensures states { IfOk result (λ r. StandsForValues space.new (spots_in frame.now slot).present r (λ q. q ≡ (machine_of machine.now).reset ∷ [])) }
    ensures grows { Grows space.old space.new }
    ensures levels { space.new.levels ≡ space.old.levels }
    ensures limit { IfErr result (IsLimit space.new (λ states. states ≡ 0)) }
{
    let present = &frame.present_codings(slot)[0];
    match present.cube(space, 0, machine.reset) {
        Ok(r) => Ok(r),
        Err(fault) => Err(SolveFault::stopped(space, fault, 0)),
    }
}
