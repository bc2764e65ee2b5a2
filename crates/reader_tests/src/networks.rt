//! Networks and faults of texts, worked out by hand from the format.

use crate::shown::{put, put_name, put_number, put_signals};
use blifmv_reader::read_net;
use name_table::{Names, VarId};
use net_model::{Entry, Latch, Net, Table, TextFault, TextKind, Which};
use std::alloc::{AllocError, Global};
use std::test::Fail;

// The mark, and then the values.
fn put_values(out: &mut Vec<u8>, mark: &str, values: &[u32]) -> Result<(), AllocError> {
    put(out, mark)?;
    for &value in values {
        put_number(out, ",", value)?;
    }
    Ok(())
}

fn put_entry(out: &mut Vec<u8>, entry: &Entry) -> Result<(), AllocError> {
    match entry {
        Entry::Any => put(out, " -"),
        Entry::Value(value) => put_number(out, " ", *value),
        Entry::OneOf(values) => put_values(out, " ", values.as_slice()),
        Entry::NotOneOf(values) => put_values(out, " !", values.as_slice()),
        Entry::Equal(column) => put_number(out, " =", *column),
    }
}

// The mark, and then the entries.
fn put_entries(out: &mut Vec<u8>, mark: &str, entries: &[Entry]) -> Result<(), AllocError> {
    put(out, mark)?;
    for entry in entries {
        put_entry(out, entry)?;
    }
    Ok(())
}

fn put_row(out: &mut Vec<u8>, ins: &[Entry], outs: &[Entry]) -> Result<(), AllocError> {
    put_entries(out, " |", ins)?;
    put_entries(out, " ->", outs)
}

fn put_rows(out: &mut Vec<u8>, table: &Table) -> Result<(), AllocError> {
    for row in &table.rows {
        put_row(out, row.ins.as_slice(), row.outs.as_slice())?;
    }
    Ok(())
}

fn put_default(out: &mut Vec<u8>, table: &Table) -> Result<(), AllocError> {
    match &table.otherwise {
        Some(entries) => put_entries(out, " | default", entries.as_slice()),
        None => Ok(()),
    }
}

fn put_columns(
    out: &mut Vec<u8>,
    names: &Names,
    kind: &str,
    ins: &[VarId],
    outs: &[VarId],
) -> Result<(), AllocError> {
    put(out, kind)?;
    put_signals(out, names, ins)?;
    put(out, " ->")?;
    put_signals(out, names, outs)
}

// A table as its columns, its default and its rows, parted by bars.
fn put_table(
    out: &mut Vec<u8>,
    names: &Names,
    kind: &str,
    table: &Table,
) -> Result<(), AllocError> {
    put_columns(
        out,
        names,
        kind,
        table.ins.as_slice(),
        table.outs.as_slice(),
    )?;
    put_default(out, table)?;
    put_rows(out, table)?;
    put(out, "; ")
}

fn put_tables(
    out: &mut Vec<u8>,
    names: &Names,
    kind: &str,
    tables: &[Table],
) -> Result<(), AllocError> {
    for table in tables {
        put_table(out, names, kind, table)?;
    }
    Ok(())
}

fn put_latch(out: &mut Vec<u8>, names: &Names, latch: &Latch) -> Result<(), AllocError> {
    put(out, "latch")?;
    put_signals(out, names, &[latch.input, latch.output])?;
    put(out, "; ")
}

fn put_latches(out: &mut Vec<u8>, names: &Names, latches: &[Latch]) -> Result<(), AllocError> {
    for latch in latches {
        put_latch(out, names, latch)?;
    }
    Ok(())
}

fn size_of(names: &Names, signal: VarId) -> u32 {
    match names.domain(signal) {
        Some(domain) => domain.len(),
        None => 0,
    }
}

fn put_size(out: &mut Vec<u8>, names: &Names, signal: VarId) -> Result<(), AllocError> {
    put_name(out, "", names.name(signal))?;
    put_number(out, ":", size_of(names, signal))?;
    put(out, " ")
}

fn put_sizes(out: &mut Vec<u8>, names: &Names) -> Result<(), AllocError> {
    for number in 0..names.len() {
        put_size(out, names, VarId(number))?;
    }
    Ok(())
}

// The mark, the signals, and what parts them from the next.
fn put_port(
    out: &mut Vec<u8>,
    mark: &str,
    names: &Names,
    signals: &[VarId],
) -> Result<(), AllocError> {
    put(out, mark)?;
    put_signals(out, names, signals)?;
    put(out, "; ")
}

fn put_ports(out: &mut Vec<u8>, net: &Net) -> Result<(), AllocError> {
    put_sizes(out, &net.names)?;
    put_port(out, "; inputs", &net.names, net.inputs.as_slice())?;
    put_port(out, "outputs", &net.names, net.outputs.as_slice())
}

fn put_net(out: &mut Vec<u8>, net: &Net) -> Result<(), AllocError> {
    put_ports(out, net)?;
    put_latches(out, &net.names, net.latches.as_slice())?;
    put_tables(out, &net.names, "table", net.tables.as_slice())?;
    put_tables(out, &net.names, "reset", net.resets.as_slice())
}

fn shown(alloc: Global, net: &Net) -> Result<Vec<u8>, AllocError> {
    let mut out = Vec::new(alloc);
    put_net(&mut out, net)?;
    Ok(out)
}

fn net_text(alloc: Global, text: &str) -> Result<Vec<u8>, Fail> {
    let net = read_net(alloc, text.as_bytes())?;
    Ok(shown(alloc, &net)?)
}

// Texts, and the networks that they stand for.
const NETWORKS: &[(&str, &str)] = &[
    (
        "# three values\r\n.model mix\r\n.inputs a b\r\n.outputs y z\r\n.mv a,y 3 r g k\r\n.table a \\\r\n  b -> y\r\n.default =a\r\n!( r , g ) 1 r\r\n.table b z\r\n- !0\r\n.end\r\n",
        "a:3 b:2 y:3 z:2 ; inputs a b; outputs y z; table a b -> y | default =0 | !,0,1 1 -> 0; table b -> z | - -> !,0; ",
    ),
    (
        ".model\n.inputs i v\n.outputs u o\n.table i ->u\n- =i\n.names l -> o\n- =l\n.latch v l\n.r l\n0",
        "i:2 v:2 u:2 o:2 l:2 ; inputs i v; outputs u o; latch v l; table i -> u | - -> =0; table l -> o | - -> =0; reset -> l | -> 0; ",
    ),
    (
        ".model a\n.inputs u v\n.outputs Acc\n.outputs Acc\n.mv CS, NS 2 A DC\n.latch NS CS\n.reset CS\nA\n.table CS ->Acc\n.def 0\nA 1\n.table u v CS ->NS\n.default DC\n(0,1) 0 A A\n1 !1 (A) (A,DC,A)\n.end",
        "u:2 v:2 Acc:2 CS:2 NS:2 ; inputs u v; outputs Acc; latch NS CS; table CS -> Acc | default 0 | 0 -> 1; table u v CS -> NS | default 1 | ,0,1 0 0 -> 0 | 1 !,1 ,0 -> ,0,1,0; reset -> CS | -> 0; ",
    ),
    (
        ".model late\n.outputs o o p\n.inputs\n.table o\n0\n.table c p\n- 2\n.names c\n.mv p 3\n",
        "o:2 p:3 c:2 ; inputs; outputs o p; table -> o | -> 0; table c -> p | - -> 2; table -> c; ",
    ),
];

#[test]
fn texts_have_their_networks(rt: HostRuntime) -> Result<(), Fail> {
    for &(text, wanted) in NETWORKS {
        assert!(rt;
            net_text(rt.alloc(), text)?.as_slice() == wanted.as_bytes(),
            "{text:?}"
        );
    }
    Ok(())
}

// Texts, with the line and the kind of the first fault.
const FAULTS: &[(&str, u64, TextKind)] = &[
    ("", 1, TextKind::NoModel),
    ("# a\n\n.inputs a\n", 3, TextKind::NoModel),
    (".model t\n.exdc\n", 2, TextKind::UnknownDirective),
    (".model t\n.latch a\n", 2, TextKind::BadCount),
    (
        ".model t\n.inputs a\n.table a -> b\n0\n.outputs b\n",
        4,
        TextKind::RowWidth,
    ),
    (
        ".model t\n.table b\n.default 0\n.def 1\n.outputs b\n",
        4,
        TextKind::TwiceDefault,
    ),
    (".model t\n.mv a 65537\n", 2, TextKind::Limit(Which::Values)),
    (".model t\n.inputs a\n.model u\n", 3, TextKind::Hierarchy),
    (".model t\n.subckt u x a=a\n", 2, TextKind::Hierarchy),
    (".model t\n.inputs a->\n.inputs ->a\n", 3, TextKind::BadName),
    (".model t\n.mv a 2 x x\n", 2, TextKind::BadDomain),
    (
        ".model t\n.inputs a\n.mv b 3\n.mv a,b 2\n",
        4,
        TextKind::BadDomain,
    ),
    (
        ".model t\n.inputs a\n.outputs b\n.table a -> b\n0 2\n",
        5,
        TextKind::UnknownValue,
    ),
    (
        ".model t\n.inputs a\n.outputs b\n.table a -> b\n=a 0\n",
        5,
        TextKind::UnknownValue,
    ),
    (
        ".model free\n.outputs o\n.table -> c\n1\n.latch o l\n.reset c -> l\n=c 0\n",
        7,
        TextKind::UnknownValue,
    ),
    (
        ".model t\n.inputs a\n.outputs b c\n.table a -> b c\n- 0 =b\n",
        5,
        TextKind::EqDomain,
    ),
    (
        ".model t\n.inputs a\n.outputs b\n.mv a 3\n.table a -> b\n- =a\n",
        6,
        TextKind::EqDomain,
    ),
    (
        ".model t\n.inputs a\n.outputs b c\n.table a -> b c\n- =c 2\n",
        5,
        TextKind::UnknownValue,
    ),
    (
        ".model t\n.inputs a\n.outputs b\n.mv b 3\n.latch a b\n",
        5,
        TextKind::EqDomain,
    ),
    (
        ".model t\n.inputs a\n.outputs b\n.table a -> b\n- 0\n.table b\n1\n.end\n",
        6,
        TextKind::DrivenTwice,
    ),
    (".model t\n.inputs a a\n", 2, TextKind::DrivenTwice),
    (
        ".model t\n.inputs a\n.latch a l\n.reset l\n0\n.r l\n1\n",
        6,
        TextKind::DrivenTwice,
    ),
    (".model t\n.inputs a\n.outputs b\n", 3, TextKind::Undriven),
    (
        ".model t\n.inputs a\n.latch a l\n.reset a l\n- 0\n",
        4,
        TextKind::ResetNotConstant,
    ),
    (
        ".model t\n.inputs a\n.reset a\n0\n",
        3,
        TextKind::ResetNotConstant,
    ),
    (
        ".model t\n.inputs a\n.outputs Acc\n.table a Acc\n- 1\n",
        3,
        TextKind::AccShape,
    ),
    // an earlier pass decides before a later one, in a pass the earlier line, and on a line the lesser number
    (
        ".model t\n.inputs a a\n.outputs b\n.table a -> b\n0\n",
        5,
        TextKind::RowWidth,
    ),
    (
        ".model t\n.outputs b\n.inputs a\n.latch a l\n.latch a l\n",
        2,
        TextKind::Undriven,
    ),
    (
        ".model t\n.inputs a\n.outputs b\n.table a c -> a\n- - 0\n",
        3,
        TextKind::Undriven,
    ),
    (
        ".model t\n.inputs a\n.table a c -> a\n- - 0\n",
        3,
        TextKind::DrivenTwice,
    ),
];

fn fault_of(alloc: Global, text: &[u8]) -> Option<TextFault> {
    read_net(alloc, text).err()
}

#[test]
fn texts_have_their_faults(rt: HostRuntime) {
    for &(text, line, kind) in FAULTS {
        let wanted = Some(TextFault::At { line, kind });
        assert!(rt; fault_of(rt.alloc(), text.as_bytes()) == wanted, "{text:?}");
    }
}

const MIXED: &str =
    "# three values\r\n.model mix\r\n.inputs a b\r\n.outputs y z\r\n.mv a,y 3 r g k\r\n.table a \\\r\n  b -> y\r\n.default =a\r\n!( r , g ) 1 r\r\n.table b z\r\n- !0\r\n.end\r\n";

#[test]
fn each_front_of_a_text_is_read(rt: HostRuntime) -> Result<(), Fail> {
    let mut networks = Vec::new(rt.alloc());
    for end in 0..MIXED.len() {
        let fault = fault_of(rt.alloc(), &MIXED.as_bytes()[..end]);
        assert!(rt; fault != Some(TextFault::Memory), "at {end}");
        if fault.is_none() {
            networks.push(end)?;
        }
    }
    assert!(rt; networks.len() == 24);
    Ok(())
}
