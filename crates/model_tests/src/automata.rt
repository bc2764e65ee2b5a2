//! Which networks are taken as automata.

use crate::models::{ACC, STATE, names_with, net_of, table_of};
use aut_format::as_auto;
use net_model::{TextFault, TextKind};
use std::alloc::Global;
use std::test::Fail;

// What is told of a network with a latch, and a table of this one output from the latch's output.
fn taken(alloc: Global, output: &[u8]) -> Result<Result<(), TextFault>, Fail> {
    let names = names_with(alloc, output, 2)?;
    let table = table_of(alloc, &[STATE], &[ACC])?;
    let net = net_of(alloc, names, &[ACC], table)?;
    Ok(as_auto(&net))
}

#[test]
fn takes_automata_alone(rt: HostRuntime) -> Result<(), Fail> {
    let kind = TextKind::AccShape;
    assert!(rt; taken(rt.alloc(), b"Acc")? == Ok(()));
    assert!(rt; taken(rt.alloc(), b"acc")? == Err(TextFault::At { line: 0, kind }));
    Ok(())
}
