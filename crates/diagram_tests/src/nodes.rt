//! The node table: each node stands once, up to the limit, and what a space tells of them.

use crate::drawing::{Drawing, Step};
use node_table::{MkFault, Ref, equal_values_equal_refs, growth_is_transitive};
use std::alloc::Global;
use std::test::Fail;

// Four nodes that are two, and the refusal of a third.
fn is_held_once(alloc: Global) -> Result<bool, MkFault> {
    let mut drawing = Drawing::of(
        alloc,
        2,
        2,
        &[
            Step::Node(1, 0, 1),
            Step::Node(1, 0, 1),
            Step::Node(0, 2, 2),
            Step::Node(0, 0, 2),
        ],
    )?;
    let refused = drawing.is_full(Step::Node(1, 1, 0));
    Ok(
        refused
            && drawing.counts() == (2, 2, 2, 2)
            && drawing.has_same(&[(3, 2), (4, 2)])
            && drawing.has_tops(&[(5, Some(0)), (2, Some(1))]),
    )
}

// What is told of the constants and of one node, before and after a level is put below.
fn is_told(alloc: Global) -> Result<bool, MkFault> {
    let mut drawing = Drawing::of(alloc, 3, 10, &[Step::Node(2, 1, 0)])?;
    let first = drawing.add_level();
    Ok(
        first == Some(3)
            && drawing.counts() == (4, 1, 1, 10)
            && drawing.at(0) == Ref::ZERO
            && drawing.at(1) == Ref::ONE
            && drawing.has_tops(&[(0, None), (1, None), (2, Some(2))])
            && drawing.has_ends(2, 1, 0),
    )
}

#[test]
fn holds_each_node_once_up_to_the_limit(rt: HostRuntime) -> Result<(), Fail> {
    assert!(rt; is_held_once(rt.alloc())?);
    Ok(())
}

#[test]
fn tells_nodes_and_counts(rt: HostRuntime) -> Result<(), Fail> {
    assert!(rt; is_told(rt.alloc())?);
    equal_values_equal_refs();
    growth_is_transitive();
    Ok(())
}

#[test]
fn prints_faults(rt: HostRuntime) -> Result<(), Fail> {
    for (fault, words) in [
        (MkFault::Full, "the node table is full"),
        (MkFault::Memory, "out of memory"),
    ] {
        assert_eq!(rt; fault.to_string(rt.alloc())?.as_str(), words);
    }
    Ok(())
}
