//! The initial states of a file.

ghost use Rattle.std.specs.Prelude.{◌≡◌, ◌++◌, ◌∷◌, [], ℕ, Bool, List, length, map, All, Contains, IfOk, IfErr, OnOk};
ghost use Rattle.node_table.specs.Table.{Bits, Grows};
ghost use Rattle.mv_encoding.specs.Spots.{AreSpots, AreLaid, variables_at, StandsForValues};
ghost use Rattle.net_model.specs.Nets.{table_of, net_of};
ghost use Rattle.net_model.specs.Conditions.{Varies};
ghost use Rattle.net_model.specs.SoundNets.{IsSound};
ghost use Rattle.net_model.specs.NetLanguages.{IsInitial};
ghost use Rattle.net_model.specs.Problems.{file_of, IsSoundFile};
ghost use Rattle.net_conditions.specs.Marks.{IsSetOf};
ghost use Rattle.net_frame.specs.Frames.{spots_in, IsFilePlaced};
ghost use Rattle.net_frame.specs.Placing.{IsPlaced};
ghost use Rattle.table_parts.specs.TableParts.{IsTableOver, part_value};
ghost use Rattle.det_core.specs.Faults.{IsLimit};
ghost use Rattle.net_relation.specs.Relations.{AreFor, IsInitialOf};
ghost use Rattle.net_relation.specs.States.{constant_tables, initial_meanings};

use crate::adding::{add_table, add_tables};
use crate::latches::add_present;
use crate::machines::initial_of_machine;
use crate::projecting::project;
use det_core::SolveFault;
use mv_encoding::Coding;
use net_conditions::{Signals, varying_signals};
use net_frame::Frame;
use net_model::{File, Mode, Net, Slot, Table};
use node_table::{Ref, Space};
use part_relation::Parts;

/// The initial states of a file, in synchronous mode, as a set of codes on its levels of present values: the values of the
/// latch outputs that some values of all signals agree with which meet each table of constant outputs and each reset table.
/// No code past the end of a domain is in it. The limit on nodes is told after no states.
pub fn initial(space: &mut Space, frame: &Frame, slot: Slot, file: &File) -> Result<Ref, SolveFault>
    requires mode { frame.now.mode ≡ Mode.Sync }
    requires sound { IsSoundFile (file_of file.now) }
    requires placed { IsFilePlaced space.old (file_of file.now) (spots_in frame.now slot) }
    ensures states { IfOk result (λ r. StandsForValues space.new (spots_in frame.now slot).present r (IsInitialOf (file_of file.now))) }
    ensures grows { Grows space.old space.new }
    ensures levels { space.new.levels ≡ space.old.levels }
    ensures limit { IfErr result (IsLimit space.new (λ states. states ≡ 0)) }
{
    match file {
        File::Net(net) => initial_of_net(space, frame, slot, net),
        File::Machine(machine) => initial_of_machine(space, frame, slot, machine),
    }
}

fn initial_of_net(
    space: &mut Space,
    frame: &Frame,
    slot: Slot,
    net: &Net,
) -> Result<Ref, SolveFault>
    requires sound { IsSound (net_of net.now) }
    requires placed { IsPlaced space.old (net_of net.now) (spots_in frame.now slot) }
    ensures states { IfOk result (λ r. StandsForValues space.new (spots_in frame.now slot).present r (IsInitial (net_of net.now))) }
    ensures grows { Grows space.old space.new }
    ensures levels { space.new.levels ≡ space.old.levels }
    ensures limit { IfErr result (IsLimit space.new (λ states. states ≡ 0)) }
{
    let varying = varying_signals(space.allocator(), net)?;
    let parts = initial_parts(space, frame, slot, net, &varying)?;
    project(space, &parts, frame.present(slot))
}

// A part for each table of constant outputs, for each reset table, and for the present value of each latch.
fn initial_parts(
    space: &mut Space,
    frame: &Frame,
    slot: Slot,
    net: &Net,
    varying: &Signals,
) -> Result<Parts, SolveFault>
    requires sound { IsSound (net_of net.now) }
    requires placed { IsPlaced space.old (net_of net.now) (spots_in frame.now slot) }
    ensures parts { IfOk result (λ parts. AreFor space.new parts (initial_meanings (net_of net.now) (spots_in frame.now slot) varying.now)) }
    ensures grows { Grows space.old space.new }
    ensures levels { space.new.levels ≡ space.old.levels }
    ensures limit { IfErr result (IsLimit space.new (λ states. states ≡ 0)) }
{
    let signals = frame.signal_codings(slot);
    let present = frame.present_codings(slot);
    let mut parts = Parts::new(space.allocator());
    add_constant(space, &mut parts, signals, &net.tables, varying)?;
    add_tables(space, &mut parts, signals, &net.resets)?;
    add_present(space, &mut parts, signals, &net.latches, present)?;
    Ok(parts)
}

// Adds the parts of those tables of which no output varies.
fn add_constant(
    space: &mut Space,
    parts: &mut Parts,
    signals: &[Coding],
    tables: &[Table],
    varying: &Signals,
) -> Result<(), SolveFault>
    requires signals { AreSpots signals.now }
    requires laid { AreLaid space.old signals.now }
    requires tables { All (IsTableOver (variables_at signals.now)) (map table_of tables.now) }
    ensures ok { OnOk result ((before : List (Bits → Bool)) → AreFor space.old parts.old before → AreFor space.new parts.new (before ++ map (part_value signals.now) (constant_tables varying.now (map table_of tables.now)))) }
    ensures grows { Grows space.old space.new }
    ensures levels { space.new.levels ≡ space.old.levels }
    ensures limit { IfErr result (IsLimit space.new (λ states. states ≡ 0)) }
{
    let _levels = space.levels();
    for table in tables {
        add_if_constant(space, parts, signals, table, varying)?;
    }
    Ok(())
}

// Adds the part of a table of which no output varies, and else nothing.
fn add_if_constant(
    space: &mut Space,
    parts: &mut Parts,
    signals: &[Coding],
    table: &Table,
    varying: &Signals,
) -> Result<(), SolveFault>
    requires signals { AreSpots signals.now }
    requires laid { AreLaid space.old signals.now }
    requires table { IsTableOver (variables_at signals.now) (table_of table.now) }
    ensures ok { OnOk result ((before : List (Bits → Bool)) → AreFor space.old parts.old before → AreFor space.new parts.new (before ++ map (part_value signals.now) (constant_tables varying.now (table_of table.now ∷ [])))) }
    ensures grows { Grows space.old space.new }
    ensures levels { space.new.levels ≡ space.old.levels }
    ensures limit { IfErr result (IsLimit space.new (λ states. states ≡ 0)) }
{
    let _levels = space.levels();
    if varying.has_any(&table.outs) {
        return Ok(());
    }
    add_table(space, parts, signals, table)
}
