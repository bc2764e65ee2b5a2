//! The walks: the paths of a diagram, and its cuts.

ghost use Rattle.std.specs.Prelude.{◌≡◌, [], drop as without_first};

use crate::drawing::{Drawing, Step};
use bdd_walk::{Lit, Paths, cut};
use node_table::{MkFault, Ref};
use std::alloc::Global;
use std::test::Fail;

fn lit(level: u32, value: bool) -> Lit {
    Lit { level, value }
}

// Whether the diagram has these paths and no others.
fn has_paths(drawing: &Drawing, k: usize, expected: &[&[Lit]]) -> bool {
    let alloc = drawing.space().allocator();
    match Paths::over(alloc, drawing.space(), drawing.at(k)) {
        Ok(paths) => are_paths(paths, expected),
        Err(_) => false,
    }
}

// Whether these paths are to come, and no others.
fn are_paths(paths: Paths, expected: &[&[Lit]]) -> bool {
    let mut paths = paths;
    for path in expected {
        if paths.next_path() != Some(*path) {
            return false;
        }
    }
    paths.next_path().is_none() && paths.next_path().is_none()
}

// Whether the diagram leaves these where the levels above one are fixed.
fn has_cut(drawing: &Drawing, k: usize, level: u32, expected: &[usize]) -> bool {
    let alloc = drawing.space().allocator();
    match cut(alloc, drawing.space(), drawing.at(k), level) {
        Ok(refs) => are_diagrams(drawing, &refs, expected),
        Err(_) => false,
    }
}

// Whether these are the diagrams with these numbers.
fn are_diagrams(drawing: &Drawing, refs: &[Ref], expected: &[usize]) -> bool {
    for (r, number) in refs.iter().zip(expected) {
        if *r != drawing.at(*number) {
            return false;
        }
    }
    refs.len() == expected.len()
}

fn walks_constants_well(alloc: Global) -> Result<bool, MkFault> {
    let drawing = Drawing::of(alloc, 0, 100, &[])?;
    Ok(
        has_paths(&drawing, 0, &[])
            && has_paths(&drawing, 1, &[&[]])
            && has_cut(&drawing, 1, 3, &[1]),
    )
}

// Diagram 4: level 0 has the bit of level 1.
fn walks_equal_bits_well(alloc: Global) -> Result<bool, MkFault> {
    let drawing = Drawing::of(
        alloc,
        2,
        100,
        &[
            Step::Node(1, 0, 1),
            Step::Node(1, 1, 0),
            Step::Node(0, 3, 2),
        ],
    )?;
    let paths: &[&[Lit]] = &[
        &[lit(0, false), lit(1, false)],
        &[lit(0, true), lit(1, true)],
    ];
    Ok(
        has_paths(&drawing, 4, paths)
            && has_cut(&drawing, 4, 0, &[4])
            && has_cut(&drawing, 4, 1, &[3, 2])
            && has_cut(&drawing, 4, 9, &[1, 0]),
    )
}

// Diagram 3: the bits of levels 0 and 2 are 1; level 1 isn't asked.
fn skips_levels_well(alloc: Global) -> Result<bool, MkFault> {
    let drawing = Drawing::of(alloc, 3, 100, &[Step::Node(2, 0, 1), Step::Node(0, 0, 2)])?;
    Ok(has_paths(&drawing, 3, &[&[lit(0, true), lit(2, true)]]) && has_cut(&drawing, 3, 1, &[0, 2]))
}

// Diagram 6: the bit of level 2 is 1 where those of levels 0 and 1 are the same, so that two ways lead to each of two nodes.
fn meets_a_node_twice_well(alloc: Global) -> Result<bool, MkFault> {
    let drawing = Drawing::of(
        alloc,
        3,
        100,
        &[
            Step::Node(2, 0, 1),
            Step::Node(2, 1, 0),
            Step::Node(1, 2, 3),
            Step::Node(1, 3, 2),
            Step::Node(0, 4, 5),
        ],
    )?;
    let paths: &[&[Lit]] = &[
        &[lit(0, false), lit(1, false), lit(2, true)],
        &[lit(0, false), lit(1, true), lit(2, false)],
        &[lit(0, true), lit(1, false), lit(2, false)],
        &[lit(0, true), lit(1, true), lit(2, true)],
    ];
    Ok(has_cut(&drawing, 6, 2, &[2, 3]) && has_paths(&drawing, 6, paths))
}

#[test]
fn walks_diagrams(rt: HostRuntime) -> Result<(), Fail> {
    assert!(rt; walks_constants_well(rt.alloc())?);
    assert!(rt; walks_equal_bits_well(rt.alloc())?);
    assert!(rt; skips_levels_well(rt.alloc())?);
    assert!(rt; meets_a_node_twice_well(rt.alloc())?);
    Ok(())
}

// A caller knows what is left once a path is given back: so it can skip one, and come to the end.
fn skip_one(paths: &mut Paths)
    ensures { paths.new ≡ without_first 1 paths.old }
{
    let _ = paths.next_path();
}

fn skip_all(paths: &mut Paths)
    ensures { paths.new ≡ [] }
{
    while paths.next_path().is_some() {}
}

// Whether one path is left of two where the first is skipped, and none once all are.
fn skips_well(alloc: Global) -> Result<bool, MkFault> {
    let drawing = Drawing::of(alloc, 2, 100, &[Step::Node(1, 0, 1), Step::Node(0, 2, 1)])?;
    match Paths::over(alloc, drawing.space(), drawing.at(3)) {
        Ok(paths) => {
            let mut paths = paths;
            skip_one(&mut paths);
            let left = paths.next_path() == Some(&[lit(0, true)]);
            skip_all(&mut paths);
            Ok(left && paths.next_path().is_none())
        }
        Err(_) => Err(MkFault::Memory),
    }
}

#[test]
fn skips_paths(rt: HostRuntime) -> Result<(), Fail> {
    assert!(rt; skips_well(rt.alloc())?);
    Ok(())
}
