//! The signals that aren't constant, table by table from those that vary.

ghost use Rattle.std.specs.Prelude.{OnOk};
ghost use Rattle.net_model.specs.Nets.{net_of};
ghost use Rattle.net_model.specs.SoundNets.{HasKnownSignals};
ghost use Rattle.net_conditions.specs.Rounds.{AreVarying};

use crate::signals::Signals;
use crate::varying::add_outputs_of;
use name_table::VarId;
use net_model::{Net, Table};
use std::alloc::{AllocError, Global};

/// Adds what varies by these signals: the outputs of each table that reads one of them, then what varies by those, and
/// so on. Each signal is taken once and each table added once. That nothing is left out isn't promised here.
pub(crate) fn spread(
    alloc: Global,
    net: &Net,
    sources: Vec<VarId>,
    varying: &mut Signals,
) -> Result<(), AllocError>
    requires known { HasKnownSignals (net_of net.now) }
    requires varying { AreVarying (net_of net.now) varying.old }
    ensures { OnOk result (AreVarying (net_of net.now) varying.new) }
{
    let readers = readers_of(alloc, net)?;
    let mut is_added = vec![in alloc; false; net.tables.len()]?;
    let mut queue = sources;
    for at in 0..usize::MAX {
        let Some(signal) = queue.get(at).copied() else {
            break;
        };
        add_by(
            net,
            tables_at(&readers, signal),
            &mut is_added,
            &mut queue,
            varying,
        )?;
    }
    Ok(())
}

// Adds the outputs of these tables, where they weren't added yet, and queues those that are new.
fn add_by(
    net: &Net,
    tables: &[usize],
    is_added: &mut Vec<bool>,
    queue: &mut Vec<VarId>,
    varying: &mut Signals,
) -> Result<(), AllocError>
    requires known { HasKnownSignals (net_of net.now) }
    requires varying { AreVarying (net_of net.now) varying.old }
    ensures { OnOk result (AreVarying (net_of net.now) varying.new) }
{
    for place in tables {
        if take(is_added, *place) {
            add_at(net, *place, queue, varying)?;
        }
    }
    Ok(())
}

// Whether a place is taken for the first time.
fn take(is_added: &mut Vec<bool>, place: usize) -> bool {
    if place >= is_added.len() || is_added[place] {
        return false;
    }
    is_added[place] = true;
    true
}

// Adds the outputs of the table at a place, where one of its inputs varies, and queues those that are new.
fn add_at(
    net: &Net,
    place: usize,
    queue: &mut Vec<VarId>,
    varying: &mut Signals,
) -> Result<(), AllocError>
    requires known { HasKnownSignals (net_of net.now) }
    requires varying { AreVarying (net_of net.now) varying.old }
    ensures { OnOk result (AreVarying (net_of net.now) varying.new) }
{
    let Some(table) = net.tables.get(place) else {
        return Ok(());
    };
    queue_new(&table.outs, varying, queue)?;
    add_outputs_of(table, varying);
    Ok(())
}

fn queue_new(
    signals: &[VarId],
    varying: &Signals,
    queue: &mut Vec<VarId>,
) -> Result<(), AllocError> {
    for signal in signals {
        if !varying.has(*signal) {
            queue.push(*signal)?;
        }
    }
    Ok(())
}

// The places of the tables that read each signal.
fn readers_of(alloc: Global, net: &Net) -> Result<Vec<Vec<usize>>, AllocError> {
    let mut readers = Vec::new(alloc);
    for _ in 0..net.names.len() {
        readers.push(Vec::new(alloc))?;
    }
    for (place, table) in net.tables.iter().enumerate() {
        put_reader(&mut readers, place, &table.ins)?;
    }
    Ok(readers)
}

fn put_reader(
    readers: &mut Vec<Vec<usize>>,
    place: usize,
    inputs: &[VarId],
) -> Result<(), AllocError> {
    for input in inputs {
        if let Some(places) = readers.get_mut(input.0 as usize) {
            places.push(place)?;
        }
    }
    Ok(())
}

fn tables_at(readers: &[Vec<usize>], signal: VarId) -> &[usize] {
    match readers.get(signal.0 as usize) {
        Some(places) => places.as_slice(),
        None => &[],
    }
}
