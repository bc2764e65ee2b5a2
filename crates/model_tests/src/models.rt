//! That a list of names gives them back, and which networks are automata.

use name_table::{Domain, NameFault, Names, VarId};
use net_model::{Latch, NameList, Net, Table};
use std::alloc::{AllocError, Global};
use std::test::Fail;

const LISTED: &[&str] = &["v", "", "v"];

const PLACES: &[(u64, &str)] = &[(0, "v"), (1, ""), (2, "v")];

#[test]
fn names_come_back_in_their_order(rt: HostRuntime) -> Result<(), Fail> {
    let mut list = NameList::new(rt.alloc());
    assert!(rt; list.at(0).is_none());
    for &name in LISTED {
        list.push(name.as_bytes())?;
    }
    assert!(rt; list.len() == 3);
    for &(place, name) in PLACES {
        assert!(rt; list.at(place) == Some(name.as_bytes()), "{place}");
    }
    assert!(rt; list.at(3).is_none() && list.at(u64::MAX).is_none());
    Ok(())
}

const INPUT: VarId = VarId(0);

pub const STATE: VarId = VarId(1);

pub const ACC: VarId = VarId(2);

// The input, the state and a signal with this name and so many values.
pub fn names_with(alloc: Global, last: &[u8], values: u32) -> Result<Names, NameFault> {
    let mut names = Names::new(alloc);
    add(&mut names, alloc, b"a", 2)?;
    add(&mut names, alloc, b"q", 2)?;
    add(&mut names, alloc, last, values)?;
    Ok(names)
}

fn add(names: &mut Names, alloc: Global, name: &[u8], values: u32) -> Result<VarId, NameFault> {
    match Domain::numbered(alloc, values) {
        Ok(domain) => names.add(name, domain),
        Err(_) => Err(NameFault::Memory),
    }
}

pub fn table_of(alloc: Global, ins: &[VarId], outs: &[VarId]) -> Result<Table, AllocError> {
    let ins = Vec::from_slice(alloc, ins)?;
    let outs = Vec::from_slice(alloc, outs)?;
    Ok(Table {
        ins,
        outs,
        rows: Vec::new(alloc),
        otherwise: None,
    })
}

// A network with one input, one latch and this table.
pub fn net_of(
    alloc: Global,
    names: Names,
    outputs: &[VarId],
    table: Table,
) -> Result<Net, AllocError> {
    let inputs = Vec::from_slice(alloc, &[INPUT])?;
    let outputs = Vec::from_slice(alloc, outputs)?;
    let latch = Latch {
        input: INPUT,
        output: STATE,
    };
    let latches = vec![in alloc; latch]?;
    let tables = vec![in alloc; table]?;
    Ok(Net {
        names,
        inputs,
        outputs,
        tables,
        latches,
        resets: Vec::new(alloc),
    })
}

fn is_auto(
    alloc: Global,
    values: u32,
    outputs: &[VarId],
    ins: &[VarId],
    outs: &[VarId],
) -> Result<bool, Fail> {
    let names = names_with(alloc, b"Acc", values)?;
    let table = table_of(alloc, ins, outs)?;
    let net = net_of(alloc, names, outputs, table)?;
    Ok(net.is_auto())
}

// How many values `Acc` has, the outputs, the inputs and outputs of the table, and whether that is an automaton.
const NETWORKS: &[(u32, &[VarId], &[VarId], &[VarId], bool)] = &[
    (2, &[ACC], &[STATE], &[ACC], true),
    (2, &[ACC], &[], &[ACC], true),
    // the output is not `Acc`, or not the only one
    (2, &[STATE], &[STATE], &[STATE], false),
    (2, &[], &[STATE], &[ACC], false),
    (2, &[ACC, STATE], &[STATE], &[ACC], false),
    // `Acc` has three values
    (3, &[ACC], &[STATE], &[ACC], false),
    // its table reads an input, sets another signal too, or isn't there
    (2, &[ACC], &[STATE, INPUT], &[ACC], false),
    (2, &[ACC], &[STATE], &[ACC, STATE], false),
    (2, &[ACC], &[STATE], &[STATE], false),
];

#[test]
fn tells_automata(rt: HostRuntime) -> Result<(), Fail> {
    for &(values, outputs, ins, outs, wanted) in NETWORKS {
        assert!(rt;
            is_auto(rt.alloc(), values, outputs, ins, outs)? == wanted,
            "{outputs:?} {ins:?} {outs:?}"
        );
    }
    Ok(())
}
