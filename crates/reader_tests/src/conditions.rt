//! Small networks: a good one, and for each condition some that break it alone.

ghost use Rattle.net_model.specs.Nets.{net_of};
ghost use Rattle.net_model.specs.SoundNets.{HasKnownSignals};

use name_table::{Domain, NameFault, Names, VarId};
use net_conditions::{
    accepting_signal, are_resets, are_uses_driven, has_known_signals, have_equal_sizes,
    is_acceptance_met, is_driven_once, is_reset_once, meets_conditions, varying_signals,
};
use net_model::{Latch, Net, Table};
use std::alloc::{AllocError, Global};
use std::test::Fail;

// The signals of the networks, by their numbers.
const A: VarId = VarId(0);

const STATE: VarId = VarId(1);

const NEXT: VarId = VarId(2);

const FIRST: VarId = VarId(3);

const SECOND: VarId = VarId(4);

const ACC: VarId = VarId(5);

const LARGE: VarId = VarId(6);

// Their names, and how many values they have.
const SIGNALS: &[(&str, u32)] = &[
    ("a", 2),
    ("state", 2),
    ("next", 2),
    ("first", 2),
    ("second", 2),
    ("Acc", 2),
    ("large", 3),
];

fn add(names: &mut Names, alloc: Global, name: &str, values: u32) -> Result<VarId, NameFault> {
    match Domain::numbered(alloc, values) {
        Ok(domain) => names.add(name.as_bytes(), domain),
        Err(_) => Err(NameFault::Memory),
    }
}

fn names_of(alloc: Global) -> Result<Names, NameFault> {
    let mut names = Names::new(alloc);
    for &(name, values) in SIGNALS {
        add(&mut names, alloc, name, values)?;
    }
    Ok(names)
}

// The columns of a table: its inputs and its outputs.
type Columns = (&'static [VarId], &'static [VarId]);

fn table_of(alloc: Global, (ins, outs): Columns) -> Result<Table, AllocError> {
    let ins = Vec::from_slice(alloc, ins)?;
    let outs = Vec::from_slice(alloc, outs)?;
    Ok(Table {
        ins,
        outs,
        rows: Vec::new(alloc),
        otherwise: None,
    })
}

fn push_table(tables: &mut Vec<Table>, columns: Columns) -> Result<(), AllocError> {
    let table = table_of(*tables.allocator(), columns)?;
    Ok(tables.push(table)?)
}

fn tables_of(alloc: Global, columns: &[Columns]) -> Result<Vec<Table>, AllocError> {
    let mut tables = Vec::new(alloc);
    for &columns in columns {
        push_table(&mut tables, columns)?;
    }
    Ok(tables)
}

fn push_latch(latches: &mut Vec<Latch>, (input, output): (VarId, VarId)) -> Result<(), AllocError> {
    Ok(latches.push(Latch { input, output })?)
}

fn latches_of(alloc: Global, signals: &[(VarId, VarId)]) -> Result<Vec<Latch>, AllocError> {
    let mut latches = Vec::new(alloc);
    for &signals in signals {
        push_latch(&mut latches, signals)?;
    }
    Ok(latches)
}

// The outputs of a network, its tables, latches and reset tables.
type Parts = (
    &'static [VarId],
    &'static [Columns],
    &'static [(VarId, VarId)],
    &'static [Columns],
);

// The network of these parts, whose one input is `a`.
fn net_with(alloc: Global, names: Names, parts: Parts) -> Result<Net, AllocError> {
    let inputs = Vec::from_slice(alloc, &[A])?;
    let outputs = Vec::from_slice(alloc, parts.0)?;
    let tables = tables_of(alloc, parts.1)?;
    let latches = latches_of(alloc, parts.2)?;
    let resets = tables_of(alloc, parts.3)?;
    Ok(Net {
        names,
        inputs,
        outputs,
        tables,
        latches,
        resets,
    })
}

fn net(alloc: Global, parts: Parts) -> Result<Net, Fail> {
    let names = names_of(alloc)?;
    Ok(net_with(alloc, names, parts)?)
}

// Whether a condition is met, by its place in `MeetsConditions`.
fn is_met(alloc: Global, net: &Net, place: u32) -> Result<bool, AllocError>
    requires { HasKnownSignals (net_of net.now) }
{
    match place {
        0 => is_driven_once(alloc, net),
        1 => are_uses_driven(alloc, net),
        2 => Ok(have_equal_sizes(net)),
        3 => is_reset_once(alloc, net),
        4 => are_resets(alloc, net),
        _ => is_acceptance_met(alloc, net),
    }
}

// Whether the condition at this place fails and no other, or none.
fn breaks(alloc: Global, net: &Net, broken: Option<u32>) -> Result<bool, AllocError>
    requires { HasKnownSignals (net_of net.now) }
{
    for place in 0..6 {
        if is_met(alloc, net, place)? == (broken == Some(place)) {
            return Ok(false);
        }
    }
    Ok(meets_conditions(alloc, net)? == broken.is_none())
}

fn breaks_alone(alloc: Global, parts: Parts, broken: Option<u32>) -> Result<bool, Fail> {
    let net = net(alloc, parts)?;
    if !has_known_signals(&net) {
        return Ok(false);
    }
    Ok(breaks(alloc, &net, broken)?)
}

// A latch whose next state comes from the input by a chain of two tables, the later one first.
const CHAIN: &[Columns] = &[
    (&[FIRST, SECOND], &[NEXT]),
    (&[A], &[FIRST]),
    (&[], &[SECOND]),
    (&[STATE], &[ACC]),
];

const LATCH: &[(VarId, VarId)] = &[(NEXT, STATE)];

const RESET: &[Columns] = &[(&[SECOND], &[STATE])];

const GOOD: Parts = (&[ACC], CHAIN, LATCH, RESET);

const NETWORKS: &[(Parts, Option<u32>)] = &[
    (GOOD, None),
    // a latch's output is driven by a table too
    (
        (
            &[ACC],
            &[
                (&[FIRST, SECOND], &[NEXT]),
                (&[A], &[FIRST]),
                (&[], &[SECOND]),
                (&[STATE], &[ACC]),
                (&[A], &[STATE]),
            ],
            LATCH,
            RESET,
        ),
        Some(0),
    ),
    // an output is driven by nothing
    ((&[ACC, LARGE], CHAIN, LATCH, RESET), Some(1)),
    // a latch has two sizes
    (
        (&[ACC], CHAIN, &[(NEXT, STATE), (A, LARGE)], RESET),
        Some(2),
    ),
    // a latch is reset twice
    (
        (
            &[ACC],
            CHAIN,
            LATCH,
            &[(&[SECOND], &[STATE]), (&[], &[STATE])],
        ),
        Some(3),
    ),
    // a reset goes by a latch, or by a table of an input, or sets no latch
    ((&[ACC], CHAIN, LATCH, &[(&[STATE], &[STATE])]), Some(4)),
    ((&[ACC], CHAIN, LATCH, &[(&[NEXT], &[STATE])]), Some(4)),
    ((&[ACC], CHAIN, LATCH, &[(&[], &[NEXT])]), Some(4)),
    // acceptance goes by an input, or comes with another signal
    (
        (
            &[ACC],
            &[
                (&[FIRST, SECOND], &[NEXT]),
                (&[A], &[FIRST]),
                (&[], &[SECOND]),
                (&[STATE, A], &[ACC]),
            ],
            LATCH,
            RESET,
        ),
        Some(5),
    ),
    (
        (
            &[ACC],
            &[
                (&[FIRST, SECOND], &[NEXT]),
                (&[A], &[FIRST]),
                (&[], &[SECOND]),
                (&[STATE], &[LARGE, ACC]),
            ],
            LATCH,
            RESET,
        ),
        Some(5),
    ),
];

#[test]
fn networks_break_one_condition(rt: HostRuntime) -> Result<(), Fail> {
    for &(parts, broken) in NETWORKS {
        assert!(rt; breaks_alone(rt.alloc(), parts, broken)?, "{parts:?}");
    }
    Ok(())
}

// Signals, and whether inputs or latches can change them.
const VARYING: &[(VarId, bool)] = &[
    (A, true),
    (STATE, true),
    (NEXT, true),
    (FIRST, true),
    (SECOND, false),
    (ACC, true),
];

// Whether these are the signals that vary.
fn vary(alloc: Global, net: &Net) -> Result<bool, AllocError>
    requires { HasKnownSignals (net_of net.now) }
{
    let varying = varying_signals(alloc, net)?;
    for &(signal, wanted) in VARYING {
        if varying.has(signal) != wanted {
            return Ok(false);
        }
    }
    Ok(true)
}

#[test]
fn some_signals_vary(rt: HostRuntime) -> Result<(), Fail> {
    let net = net(rt.alloc(), GOOD)?;
    assert!(rt; has_known_signals(&net));
    assert!(rt; accepting_signal(&net) == Some(ACC));
    assert!(rt; vary(rt.alloc(), &net)?);
    Ok(())
}

#[test]
fn refuses_unknown_signals(rt: HostRuntime) -> Result<(), Fail> {
    let net = net(rt.alloc(), (&[ACC], &[(&[VarId(7)], &[ACC])], LATCH, RESET))?;
    assert!(rt; !has_known_signals(&net));
    Ok(())
}
