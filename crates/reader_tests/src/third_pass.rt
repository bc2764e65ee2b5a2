//! Texts whose faults of signals were worked out by hand from the format.

ghost use Rattle.std.specs.Prelude.{◌≡◌};
ghost use Rattle.net_model.specs.Nets.{net_of};
ghost use Rattle.net_model.specs.NetTexts.{net_with, text_in};

use blifmv_names::read_names;
use blifmv_signals::check_signals;
use blifmv_tables::read_tables;
use net_conditions::{has_known_signals, have_equal_sizes};
use net_model::{Net, TextFault, TextKind};
use std::alloc::Global;

fn check_known(alloc: Global, bytes: &[u8], net: &Net) -> Result<(), TextFault>
    requires said { net_of net.now ≡ net_with (net_of net.now).names (text_in bytes.now) }
{
    if has_known_signals(net) && have_equal_sizes(net) {
        check_signals(alloc, bytes, net)
    } else {
        Err(TextFault::Memory)
    }
}

// What the third pass says of a text that the first two take.
fn checked(alloc: Global, bytes: &[u8]) -> Result<(), TextFault> {
    let names = read_names(alloc, bytes)?;
    let net = read_tables(alloc, bytes, names)?;
    check_known(alloc, bytes, &net)
}

const GOOD: &[&str] = &[
    // signals are used above the lines that drive them
    ".model m\n.outputs b\n.table a -> b\n- =a\n.inputs a\n",
    // an automaton
    ".model m\n.inputs a\n.outputs Acc\n.latch n q\n.reset q\n0\n.table a q -> n\n- - 1\n.table q -> Acc\n- 1\n",
    // a reset by what tables make of nothing
    ".model m\n.inputs a\n.latch a q\n.table -> c\n1\n.table c -> d\n- 1\n.reset d -> q\n- 0\n",
    // `Acc` beside another output is a signal like any other, and so is the output of another name
    ".model m\n.inputs Acc b\n.outputs Acc b\n",
    ".model m\n.inputs a\n.outputs a\n",
];

#[test]
fn takes_good_texts(rt: HostRuntime) {
    for &text in GOOD {
        assert!(rt; checked(rt.alloc(), text.as_bytes()) == Ok(()), "{text}");
    }
}

// Texts, with the line and the kind of the first fault.
const FAULTS: &[(&str, u64, TextKind)] = &[
    // a second table, a latch behind an input, a table behind a latch, twice on one line
    (
        ".model m\n.inputs a\n.table -> b\n0\n.table a -> b\n0 1\n",
        5,
        TextKind::DrivenTwice,
    ),
    (
        ".model m\n.inputs a b\n.latch a b\n",
        3,
        TextKind::DrivenTwice,
    ),
    (
        ".model m\n\n.inputs a # b\n.latch a q\n.table a -> q\n0 1\n",
        5,
        TextKind::DrivenTwice,
    ),
    (".model m\n.table -> b b\n0 0\n", 2, TextKind::DrivenTwice),
    // a line that goes on has the number of its first part
    (".model m\n.inputs a \\\n a\n", 2, TextKind::DrivenTwice),
    // a latch that is reset twice
    (
        ".model m\n.inputs a\n.latch a q\n.reset q\n0\n.reset q\n1\n",
        6,
        TextKind::DrivenTwice,
    ),
    // the third line that drives a signal is not the first with a fault
    (
        ".model m\n.inputs a\n.inputs a\n.inputs a\n",
        3,
        TextKind::DrivenTwice,
    ),
    // an output, the input of a latch, of a table, of a reset table
    (".model m\n.inputs a\n.outputs a b\n", 3, TextKind::Undriven),
    (".model m\n\n.latch n q\n", 3, TextKind::Undriven),
    (
        ".model m\n.inputs a\n.table a z -> b\n0 0 1\n",
        3,
        TextKind::Undriven,
    ),
    (
        ".model m\n.inputs a\n.latch a q\n.reset z -> q\n0 0\n",
        4,
        TextKind::Undriven,
    ),
    // a reset by an input, by what a table makes of it, by a latch, and of what is no latch
    (
        ".model m\n.inputs a\n.latch a q\n.reset a -> q\n0 0\n",
        4,
        TextKind::ResetNotConstant,
    ),
    (
        ".model m\n.inputs a\n.latch a q\n.table a -> k\n0 1\n.reset k -> q\n- 0\n",
        6,
        TextKind::ResetNotConstant,
    ),
    (
        ".model m\n.inputs a\n.latch a q\n.reset q -> q\n0 0\n",
        4,
        TextKind::ResetNotConstant,
    ),
    (
        ".model m\n.inputs a\n.latch a q\n.table -> k\n0\n.reset k\n0\n",
        6,
        TextKind::ResetNotConstant,
    ),
    // an automaton whose acceptance reads an input, is an input, has three values, or comes with another signal
    (
        ".model m\n.inputs a\n\n.outputs Acc\n.table a -> Acc\n- 1\n",
        4,
        TextKind::AccShape,
    ),
    (
        ".model m\n.inputs Acc\n.outputs Acc\n",
        3,
        TextKind::AccShape,
    ),
    (
        ".model m\n.mv Acc 3\n.outputs Acc\n.table -> Acc\n2\n",
        3,
        TextKind::AccShape,
    ),
    (
        ".model m\n.outputs Acc\n.table -> Acc b\n1 1\n",
        2,
        TextKind::AccShape,
    ),
    // it is told at the first line of outputs, also where another one names them
    (
        ".model m\n.inputs Acc\n.outputs\n.outputs Acc\n",
        3,
        TextKind::AccShape,
    ),
    (
        ".model m\n.inputs Acc\n.outputs Acc\n.outputs Acc\n",
        3,
        TextKind::AccShape,
    ),
    // of two lines the first one counts
    (
        ".model m\n.inputs a\n.outputs b\n.inputs a\n",
        3,
        TextKind::Undriven,
    ),
    (
        ".model m\n.inputs a\n.inputs a\n.outputs b\n",
        3,
        TextKind::DrivenTwice,
    ),
    // of two faults on one line the one that comes first in the list of kinds
    (
        ".model m\n.inputs b\n.table z -> b\n0 0\n",
        3,
        TextKind::DrivenTwice,
    ),
    (
        ".model m\n.inputs a\n.latch a q\n.reset z -> a\n0 0\n",
        4,
        TextKind::Undriven,
    ),
    (".model m\n.inputs a\n.outputs Acc\n", 3, TextKind::Undriven),
    (
        ".model m\n.inputs a\n.latch a q\n.reset q\n0\n.reset a -> q\n0 0\n",
        6,
        TextKind::DrivenTwice,
    ),
];

#[test]
fn first_faults_of_signals_are_told(rt: HostRuntime) {
    for &(text, line, kind) in FAULTS {
        let wanted = Err(TextFault::At { line, kind });
        assert!(rt; checked(rt.alloc(), text.as_bytes()) == wanted, "{text}");
    }
}
