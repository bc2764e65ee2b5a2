//! The steps, the initial and the accepting states of small networks, worked out by hand from the definitions of
//! `net_model`.

ghost use Rattle.std.specs.Prelude.{◌≡◌, IfOk, None};
ghost use Rattle.node_table.specs.Table.{IsValid};
ghost use Rattle.net_model.specs.declared.class.Mode.TheVariants.{Sync};
ghost use Rattle.net_frame.specs.Frames.{FitsProblem};
ghost use Rattle.part_relation.specs.Plans.{AreValid};

use crate::shown::{are_levels, has_paths};
use bdd_ops::LevelSet;
use laid_problems::{drop_frame, drop_problem, drop_space, laid_problem};
use net_model::Slot;
use net_problem::Problem;
use net_relation::{Frame, SolveFault, accepting, initial, relation_of};
use node_table::{Ref, Space};
use part_relation::{Parts, image, schedule};
use std::alloc::Global;
use std::test::Fail;

// A text of F, one of S, the names of X's inputs and outputs, and the patterns of F's steps, of its initial and of its
// accepting states, all levels of inner signals hidden.
type Case<'a> = (
    (&'a str, &'a str),
    (&'a str, &'a str),
    (&'a str, &'a str, &'a str),
);

const CASES: &[Case<'static>] = &[
    // two wires: the levels are those of u, v, i, o
    (
        (
            ".model wire\n.inputs i v\n.outputs u o\n.table i -> u\n- =i\n.table v -> o\n- =v\n",
            ".model copy\n.inputs i\n.outputs o\n.table i -> o\n- =i\n",
        ),
        ("u", "v"),
        ("0000 0101 1010 1111", "----", "----"),
    ),
    // three values in two bits: those of u and of i; the fourth code is in no step
    (
        (
            ".model tri\n.inputs i\n.outputs u\n.mv i,u 3 r g k\n.table i -> u\n- =i\n",
            ".model s\n.inputs u i\n.mv u,i 3 r g k\n",
        ),
        ("", "u"),
        ("0000 0101 1010", "----", "----"),
    ),
    // a latch whose output is a letter: the levels of a, q, and of its present and its next value
    (
        (
            ".model late\n.inputs a\n.outputs q\n.latch a q\n.reset q\n0\n",
            ".model s\n.inputs a q\n",
        ),
        ("a", "q"),
        ("0000 0110 1001 1111", "--0-", "----"),
    ),
    // an automaton: the levels of e, Acc, n, and of the present and the next value of c
    (
        (
            ".model a\n.inputs e\n.outputs Acc\n.latch n c\n.reset c\n0\n.table e c -> n\n.default 1\n0 0 0\n.table c -> Acc\n0 1\n1 0\n",
            ".model s\n.inputs e\n",
        ),
        ("", "e"),
        ("0--00 0--11 1---1", "---0-", "---0-"),
    ),
    // a default stands for the inputs that no row matches, and for these alone
    (
        (
            ".model d\n.inputs a\n.outputs b\n.table a -> b\n.default 1\n0 0\n",
            ".model s\n.inputs a\n",
        ),
        ("a", "b"),
        ("00 11", "--", "--"),
    ),
    // lists, what is denied, and a default that names an input
    (
        (
            ".model l\n.inputs a\n.outputs b\n.mv a,b 3 r g k\n.table a -> b\n.default =a\n(r,g) !r\n",
            ".model s\n.inputs a\n.mv a 3 r g k\n",
        ),
        ("a", "b"),
        ("0-01 0-10 1010", "----", "----"),
    ),
    // a constant by which a latch is reset: the levels of a, q, of q's present and next value, and of k
    (
        (
            ".model k\n.inputs a\n.outputs q\n.latch a q\n.table k\n1\n.reset k -> q\n0 1\n1 0\n",
            ".model s\n.inputs a q\n",
        ),
        ("a", "q"),
        ("0000- 0110- 1001- 1111-", "--0--", "-----"),
    ),
    // a table that never holds, and a latch that starts at any value
    (
        (
            ".model n\n.inputs a\n.outputs q\n.latch a q\n.table b\n",
            ".model s\n.inputs a q\n",
        ),
        ("a", "q"),
        ("", "", "-----"),
    ),
];

// The levels of letters and of states.
fn kept_levels(alloc: Global, frame: &Frame) -> Result<Vec<u32>, Fail> {
    let mut levels = Vec::new(alloc);
    put(&mut levels, frame.letters(Slot::F))?;
    put(&mut levels, frame.present(Slot::F))?;
    put(&mut levels, frame.next(Slot::F))?;
    Ok(levels)
}

fn put(levels: &mut Vec<u32>, more: &LevelSet) -> Result<(), Fail> {
    for place in 0..more.len() {
        if let Some(level) = more.at(place) {
            levels.push(level)?;
        }
    }
    Ok(())
}

// Whether the parts leave these paths at the levels of letters and of states.
fn leaves(space: &mut Space, frame: &Frame, parts: &Parts, patterns: &str) -> Result<bool, Fail>
    requires { AreValid space.old parts.now }
{
    let alloc = space.allocator();
    let levels = kept_levels(alloc, frame)?;
    if levels.len() > 1_000 {
        return Ok(false);
    }
    let keep = LevelSet::of(alloc, &levels)?;
    if !are_levels(space, &keep) {
        return Ok(false);
    }
    let plan = schedule(alloc, space, parts, &keep)?;
    let all = space.one();
    let r = image(space, parts, &plan, all)?;
    Ok(has_paths(space, r, patterns))
}

// The steps of F.
pub(crate) fn steps_of_f(
    space: &mut Space,
    problem: &Problem,
    frame: &Frame,
) -> Result<Parts, SolveFault>
    requires sync { problem.now.topology.mode ≡ Sync }
    requires fits { FitsProblem space.old problem.now None frame.now }
    ensures { IfOk result (AreValid space.new) }
{
    let _mode = problem.mode();
    relation_of(space, frame, Slot::F, problem.f())
}

fn initial_of_f(space: &mut Space, problem: &Problem, frame: &Frame) -> Result<Ref, SolveFault>
    requires sync { problem.now.topology.mode ≡ Sync }
    requires fits { FitsProblem space.old problem.now None frame.now }
    ensures { IfOk result (IsValid space.new) }
{
    let _mode = problem.mode();
    initial(space, frame, Slot::F, problem.f())
}

fn accepting_of_f(space: &mut Space, problem: &Problem, frame: &Frame) -> Result<Ref, SolveFault>
    requires sync { problem.now.topology.mode ≡ Sync }
    requires fits { FitsProblem space.old problem.now None frame.now }
    ensures { IfOk result (IsValid space.new) }
{
    let _mode = problem.mode();
    accepting(space, frame, Slot::F, problem.f())
}

// Whether F's steps have these paths.
fn are_steps(
    space: &mut Space,
    problem: &Problem,
    frame: &Frame,
    patterns: &str,
) -> Result<bool, Fail>
    requires sync { problem.now.topology.mode ≡ Sync }
    requires fits { FitsProblem space.old problem.now None frame.now }
{
    let parts = steps_of_f(space, problem, frame)?;
    leaves(space, frame, &parts, patterns)
}

// Whether F's initial states have these paths.
fn are_initial(
    space: &mut Space,
    problem: &Problem,
    frame: &Frame,
    patterns: &str,
) -> Result<bool, Fail>
    requires sync { problem.now.topology.mode ≡ Sync }
    requires fits { FitsProblem space.old problem.now None frame.now }
{
    let r = initial_of_f(space, problem, frame)?;
    Ok(has_paths(space, r, patterns))
}

// Whether F's accepting states have these paths.
fn are_accepting(
    space: &mut Space,
    problem: &Problem,
    frame: &Frame,
    patterns: &str,
) -> Result<bool, Fail>
    requires sync { problem.now.topology.mode ≡ Sync }
    requires fits { FitsProblem space.old problem.now None frame.now }
{
    let r = accepting_of_f(space, problem, frame)?;
    Ok(has_paths(space, r, patterns))
}

fn has_steps(
    alloc: Global,
    texts: (&[u8], &[u8]),
    names: (&str, &str),
    patterns: &str,
) -> Result<bool, Fail> {
    let (problem, mut space, frame) = laid_problem(alloc, texts, names, 100_000)?;
    let right = are_steps(&mut space, &problem, &frame, patterns);
    drop_problem(problem);
    drop_frame(frame);
    drop_space(space);
    right
}

fn has_initial(
    alloc: Global,
    texts: (&[u8], &[u8]),
    names: (&str, &str),
    patterns: &str,
) -> Result<bool, Fail> {
    let (problem, mut space, frame) = laid_problem(alloc, texts, names, 100_000)?;
    let right = are_initial(&mut space, &problem, &frame, patterns);
    drop_problem(problem);
    drop_frame(frame);
    drop_space(space);
    right
}

fn has_accepting(
    alloc: Global,
    texts: (&[u8], &[u8]),
    names: (&str, &str),
    patterns: &str,
) -> Result<bool, Fail> {
    let (problem, mut space, frame) = laid_problem(alloc, texts, names, 100_000)?;
    let right = are_accepting(&mut space, &problem, &frame, patterns);
    drop_problem(problem);
    drop_frame(frame);
    drop_space(space);
    right
}

#[test]
fn relates_small_networks(rt: HostRuntime) -> Result<(), Fail> {
    let alloc = rt.alloc();
    for &((f, s), names, (steps, starts, ends)) in CASES {
        let texts = (f.as_bytes(), s.as_bytes());
        assert!(rt; has_steps(alloc, texts, names, steps)?);
        assert!(rt; has_initial(alloc, texts, names, starts)?);
        assert!(rt; has_accepting(alloc, texts, names, ends)?);
    }
    Ok(())
}
