//! The step relation of a file, by parts.

ghost use Rattle.std.specs.Prelude.{◌≡◌, length, map, IfOk, IfErr};
ghost use Rattle.node_table.specs.Table.{Grows};
ghost use Rattle.net_model.specs.Nets.{net_of};
ghost use Rattle.net_model.specs.SoundNets.{IsSound};
ghost use Rattle.net_model.specs.NetLanguages.{Steps};
ghost use Rattle.net_model.specs.Problems.{file_of, IsSoundFile};
ghost use Rattle.net_frame.specs.Frames.{spots_in, IsFilePlaced};
ghost use Rattle.net_frame.specs.Placing.{IsPlaced};
ghost use Rattle.part_relation.specs.Steps.{StandsForSteps};
ghost use Rattle.det_core.specs.Faults.{IsLimit};
ghost use Rattle.net_relation.specs.Relations.{AreFor, part_meanings, step_code, file_meanings, StandsForFileSteps};

use crate::adding::{add, add_tables};
use crate::latches::add_latches;
use crate::machines::parts_of_machine;
use det_core::SolveFault;
use mv_encoding::all_values;
use net_frame::Frame;
use net_model::{File, Mode, Net, Slot};
use node_table::Space;
use part_relation::Parts;

/// The steps of a file, in synchronous mode, on the levels that the frame has for it in this slot: one part for each table in
/// the order of the network, then one for each latch, and at last the set of its letters. No level is hidden. A part before
/// the last is 1 only at codes of values, and there exactly where its table or latch holds: a latch where its next value is
/// that of its input, and its present value that of its output, which may be a letter. A table's part is made from halves of
/// its rows, so in a time that grows about as their number. A machine has one part, from all its rows, which is 1 only at codes
/// of values. The limit on nodes is told after no states.
pub fn relation_of(
    space: &mut Space,
    frame: &Frame,
    slot: Slot,
    file: &File,
) -> Result<Parts, SolveFault>
    requires mode { frame.now.mode ≡ Mode.Sync }
    requires sound { IsSoundFile (file_of file.now) }
    requires placed { IsFilePlaced space.old (file_of file.now) (spots_in frame.now slot) }
    ensures steps { IfOk result (λ parts. StandsForFileSteps space.new parts (spots_in frame.now slot) (file_of file.now)) }
    ensures parts { IfOk result (λ parts. AreFor space.new parts (file_meanings (file_of file.now) (spots_in frame.now slot))) }
    ensures grows { Grows space.old space.new }
    ensures levels { space.new.levels ≡ space.old.levels }
    ensures limit { IfErr result (IsLimit space.new (λ states. states ≡ 0)) }
{
    match file {
        File::Net(net) => parts_of_net(space, frame, slot, net),
        File::Machine(machine) => parts_of_machine(space, frame, slot, machine),
    }
}

// The parts of a network.
fn parts_of_net(
    space: &mut Space,
    frame: &Frame,
    slot: Slot,
    net: &Net,
) -> Result<Parts, SolveFault>
    requires sound { IsSound (net_of net.now) }
    requires placed { IsPlaced space.old (net_of net.now) (spots_in frame.now slot) }
    ensures steps { IfOk result (λ parts. StandsForSteps space.new parts (step_code (spots_in frame.now slot)) (Steps (net_of net.now))) }
    ensures parts { IfOk result (λ parts. AreFor space.new parts (part_meanings (net_of net.now) (spots_in frame.now slot))) }
    ensures grows { Grows space.old space.new }
    ensures levels { space.new.levels ≡ space.old.levels }
    ensures limit { IfErr result (IsLimit space.new (λ states. states ≡ 0)) }
{
    let signals = frame.signal_codings(slot);
    let present = frame.present_codings(slot);
    let next = frame.next_codings(slot);
    let mut parts = Parts::new(space.allocator());
    add_tables(space, &mut parts, signals, &net.tables)?;
    add_latches(space, &mut parts, signals, &net.latches, present, next)?;
    let letters = all_values(space, frame.letter_codings(slot));
    add(space, &mut parts, letters)?;
    Ok(parts)
}
