//! The accepting states of a file.

ghost use Rattle.std.specs.Prelude.{◌≡◌, ◌<◌, ◌∷◌, [], length, map, Contains, IfOk, IfErr, IfSome, IfNone};
ghost use Rattle.node_table.specs.Table.{Grows};
ghost use Rattle.mv_encoding.specs.Spots.{AreSpots, AreLaid, StandsForValues};
ghost use Rattle.net_model.specs.Nets.{table_of, net_of};
ghost use Rattle.net_model.specs.Accepted.{is_only};
ghost use Rattle.net_model.specs.Conditions.{IsAutomaton};
ghost use Rattle.net_model.specs.SoundNets.{IsSound};
ghost use Rattle.net_model.specs.NetLanguages.{IsAccepting};
ghost use Rattle.net_model.specs.Problems.{file_of, IsSoundFile};
ghost use Rattle.net_frame.specs.Frames.{spots_in, IsFilePlaced};
ghost use Rattle.net_frame.specs.Placing.{IsPlaced};
ghost use Rattle.det_core.specs.Faults.{IsLimit};
ghost use Rattle.net_relation.specs.Relations.{AreFor, IsAcceptingOf};
ghost use Rattle.net_relation.specs.States.{accepting_meanings};

use crate::adding::{add, add_table};
use crate::latches::add_present;
use crate::projecting::project;
use det_core::SolveFault;
use mv_encoding::all_values;
use name_table::VarId;
use net_conditions::accepting_signal;
use net_frame::Frame;
use net_model::{File, Mode, Net, Slot, Table};
use node_table::{Ref, Space};
use part_relation::Parts;

/// The accepting states of a file, in synchronous mode, as a set of codes on its levels of present values: of an automaton
/// the states with which its table can give `Acc` the value of index 1, of any other network all states. No code past the
/// end of a domain is in it. The limit on nodes is told after no states.
pub fn accepting(
    space: &mut Space,
    frame: &Frame,
    slot: Slot,
    file: &File,
) -> Result<Ref, SolveFault>
    requires mode { frame.now.mode ≡ Mode.Sync }
    requires sound { IsSoundFile (file_of file.now) }
    requires placed { IsFilePlaced space.old (file_of file.now) (spots_in frame.now slot) }
    ensures states { IfOk result (λ r. StandsForValues space.new (spots_in frame.now slot).present r (IsAcceptingOf (file_of file.now))) }
    ensures grows { Grows space.old space.new }
    ensures levels { space.new.levels ≡ space.old.levels }
    ensures limit { IfErr result (IsLimit space.new (λ states. states ≡ 0)) }
{
    match file {
        File::Net(net) => accepting_of_net(space, frame, slot, net),
        File::Machine(_) => all_states(space, frame, slot),
    }
}

fn accepting_of_net(
    space: &mut Space,
    frame: &Frame,
    slot: Slot,
    net: &Net,
) -> Result<Ref, SolveFault>
    requires sound { IsSound (net_of net.now) }
    requires placed { IsPlaced space.old (net_of net.now) (spots_in frame.now slot) }
    ensures states { IfOk result (λ r. StandsForValues space.new (spots_in frame.now slot).present r (IsAccepting (net_of net.now))) }
    ensures grows { Grows space.old space.new }
    ensures levels { space.new.levels ≡ space.old.levels }
    ensures limit { IfErr result (IsLimit space.new (λ states. states ≡ 0)) }
{
    match accepting_signal(net) {
        Some(signal) => accepting_by(space, frame, slot, net, signal),
        None => all_states(space, frame, slot),
    }
}

// All states of a file.
fn all_states(space: &mut Space, frame: &Frame, slot: Slot) -> Result<Ref, SolveFault>
    requires spots { AreSpots (spots_in frame.now slot).present }
    requires laid { AreLaid space.old (spots_in frame.now slot).present }
    ensures states { IfOk result (λ r. StandsForValues space.new (spots_in frame.now slot).present r (λ q. Unit {0})) }
    ensures grows { Grows space.old space.new }
    ensures levels { space.new.levels ≡ space.old.levels }
    ensures limit { IfErr result (IsLimit space.new (λ states. states ≡ 0)) }
{
    match all_values(space, frame.present_codings(slot)) {
        Ok(r) => Ok(r),
        Err(fault) => Err(SolveFault::stopped(space, fault, 0)),
    }
}

// The states with which the table of `Acc` gives it the value of index 1.
fn accepting_by(
    space: &mut Space,
    frame: &Frame,
    slot: Slot,
    net: &Net,
    signal: VarId,
) -> Result<Ref, SolveFault>
    requires sound { IsSound (net_of net.now) }
    requires acc { IsAutomaton (net_of net.now) signal.0 }
    requires placed { IsPlaced space.old (net_of net.now) (spots_in frame.now slot) }
    ensures states { IfOk result (λ r. StandsForValues space.new (spots_in frame.now slot).present r (IsAccepting (net_of net.now))) }
    ensures grows { Grows space.old space.new }
    ensures levels { space.new.levels ≡ space.old.levels }
    ensures limit { IfErr result (IsLimit space.new (λ states. states ≡ 0)) }
{
    let table = table_of_signal(net, signal);
    let parts = accepting_parts(space, frame, slot, net, table, signal)?;
    project(space, &parts, frame.present(slot))
}

// The table that computes `Acc`.
fn table_of_signal(net: &Net, signal: VarId) -> &Table
    requires sound { IsSound (net_of net.now) }
    requires acc { IsAutomaton (net_of net.now) signal.0 }
    ensures held { Contains (net_of net.now).tables (table_of result.now) }
    ensures only { (table_of result.now).outs ≡ signal.0 ∷ [] }
{
    for table in &net.tables {
        if sets_only(table, signal) {
            return table;
        }
    }
    unreachable!()
}

// Whether the signal is the only output of the table.
fn sets_only(table: &Table, signal: VarId) -> bool
    ensures { result ≡ is_only (table_of table.now).outs signal.0 }
{
    match table.outs.as_slice() {
        [only] => only.0 == signal.0,
        [] => false,
        [_, _, ..] => false,
    }
}

// A part for the table of `Acc`, for its value of index 1, and for the present value of each latch.
fn accepting_parts(
    space: &mut Space,
    frame: &Frame,
    slot: Slot,
    net: &Net,
    table: &Table,
    signal: VarId,
) -> Result<Parts, SolveFault>
    requires sound { IsSound (net_of net.now) }
    requires acc { IsAutomaton (net_of net.now) signal.0 }
    requires held { Contains (net_of net.now).tables (table_of table.now) }
    requires placed { IsPlaced space.old (net_of net.now) (spots_in frame.now slot) }
    ensures parts { IfOk result (λ parts. AreFor space.new parts (accepting_meanings (net_of net.now) (spots_in frame.now slot) (table_of table.now) signal.0)) }
    ensures grows { Grows space.old space.new }
    ensures levels { space.new.levels ≡ space.old.levels }
    ensures limit { IfErr result (IsLimit space.new (λ states. states ≡ 0)) }
{
    let signals = frame.signal_codings(slot);
    let present = frame.present_codings(slot);
    let mut parts = Parts::new(space.allocator());
    add_table(space, &mut parts, signals, table)?;
    let one = signals[signal.0 as usize].cube(space, 0, 1);
    add(space, &mut parts, one)?;
    add_present(space, &mut parts, signals, &net.latches, present)?;
    Ok(parts)
}
