//! How many bits problems have, and relations of large networks and in small spaces.

ghost use Rattle.std.specs.Prelude.{◌≡◌, ◌≤◌, None};
ghost use Rattle.net_model.specs.declared.class.Mode.TheVariants.{Sync};
ghost use Rattle.net_frame.specs.Frames.{FitsProblem};
ghost use Rattle.part_relation.specs.Plans.{AreValid};

use crate::shown::are_levels;
use crate::steps::steps_of_f;
use bdd_ops::LevelSet;
use laid_problems::{drop_frame, drop_problem, drop_space, laid_problem, problem_of};
use mv_encoding::CodeFault;
use net_model::Slot;
use net_problem::Problem;
use net_relation::{Frame, SolveFault};
use node_table::{Ref, Space};
use part_relation::{Parts, image, schedule};
use std::alloc::{AllocError, Global};
use std::test::Fail;

const COPY: &str = ".model copy\n.inputs i\n.outputs o\n.table i -> o\n- =i\n";

const WIRE: &str =
    ".model wire\n.inputs i v\n.outputs u o\n.table i -> u\n- =i\n.table v -> o\n- =v\n";

// Two texts, the names of X, how many bits their problem has, and how many with F once more as the file of X.
const BITS: &[(&str, &str, &str, (u64, u64))] = &[
    // the joint variables alone
    (WIRE, COPY, "v", (4, 4)),
    // a latch counts twice, also where its output is a letter, and an inner signal once
    (
        ".model k\n.inputs a\n.outputs q\n.latch a q\n.table k\n1\n",
        ".model s\n.inputs a q\n",
        "q",
        (5, 8),
    ),
    // a name that stands in a line of domains alone is a signal; a variable of one value has no bits
    (
        ".model z\n.inputs a\n.mv z 5\n.mv y 1\n",
        ".model s\n.inputs a\n.mv w 3\n",
        "a",
        (6, 9),
    ),
    // a latch of three values, and an inner signal that computes it
    (
        ".model l\n.inputs a\n.mv n,c 3\n.latch n c\n.table a -> n\n- 0\n",
        ".model s\n.inputs a\n",
        "a",
        (7, 13),
    ),
];

fn bits_of((f, s): (&str, &str), outs: &str, alloc: Global) -> Result<(u64, u64), Fail> {
    let problem = problem_of(alloc, (f.as_bytes(), s.as_bytes()), ("", outs))?;
    let bits = (problem.bits(None), problem.bits(Some(problem.f())));
    drop_problem(problem);
    Ok(bits)
}

#[test]
fn counts_bits(rt: HostRuntime) -> Result<(), Fail> {
    for &(f, s, outs, bits) in BITS {
        assert!(rt; bits_of((f, s), outs, rt.alloc())? == bits);
    }
    Ok(())
}

fn put(text: &mut Vec<u8>, words: &str) -> Result<(), AllocError> {
    text.extend_from_slice(words.as_bytes())
}

// A number behind a letter.
fn put_name(text: &mut Vec<u8>, number: u32) -> Result<(), AllocError> {
    let alloc = *text.allocator();
    put(text, " n")?;
    put(text, &number.to_string(alloc)?)
}

// A network of so many binary inputs.
fn inputs_text(alloc: Global, count: u32) -> Result<Vec<u8>, AllocError> {
    let mut text = Vec::new(alloc);
    put(&mut text, ".model f\n.inputs")?;
    for number in 0..count {
        put_name(&mut text, number)?;
    }
    put(&mut text, "\n")?;
    Ok(text)
}

// How many levels the frame of a problem has, or how many bits are too many.
fn levels_for(alloc: Global, space: &mut Space, problem: &Problem) -> Result<u32, CodeFault>
    requires { space.old.levels ≤ 4000 }
{
    let frame = Frame::of(alloc, space, problem, None)?;
    drop_frame(frame);
    Ok(space.levels())
}

fn levels_in_new(alloc: Global, problem: &Problem) -> Result<u32, CodeFault> {
    let mut space = Space::with_limit(alloc, 10)?;
    levels_for(alloc, &mut space, problem)
}

fn levels_of_text(alloc: Global, text: &[u8]) -> Result<Result<u32, CodeFault>, Fail> {
    let problem = problem_of(alloc, (text, b".model s\n"), ("", "n0"))?;
    let levels = levels_in_new(alloc, &problem);
    drop_problem(problem);
    Ok(levels)
}

// The levels of the frame of so many binary inputs, or how many bits are too many.
fn levels_of(alloc: Global, count: u32) -> Result<Result<u32, CodeFault>, Fail> {
    let text = inputs_text(alloc, count)?;
    levels_of_text(alloc, &text)
}

#[test]
fn refuses_too_many_bits(rt: HostRuntime) -> Result<(), Fail> {
    assert!(rt; levels_of(rt.alloc(), 2_000)? == Ok(2_000));
    assert!(rt; levels_of(rt.alloc(), 2_001)? == Err(CodeFault::Bits(2_001)));
    Ok(())
}

// A chain of so many latches, from the input i to the output o; u is free.
fn chain_text(alloc: Global, latches: u32) -> Result<Vec<u8>, AllocError> {
    let mut text = Vec::new(alloc);
    put(
        &mut text,
        ".model wide\n.inputs i v\n.outputs u o\n.table u\n-\n.latch i n1\n",
    )?;
    for number in 1..latches {
        put(&mut text, ".latch")?;
        put_name(&mut text, number)?;
        put_name(&mut text, number + 1)?;
        put(&mut text, "\n")?;
    }
    put(&mut text, ".table")?;
    put_name(&mut text, latches)?;
    put(&mut text, " -> o\n0 0\n1 1\n")?;
    Ok(text)
}

// What all states step to.
fn image_of_all(space: &mut Space, frame: &Frame, parts: &Parts) -> Result<Ref, Fail>
    requires { AreValid space.old parts.now }
{
    let alloc = space.allocator();
    let keep = frame.next(Slot::F);
    if !are_levels(space, keep) {
        return Err(Fail::new("levels that are not there"));
    }
    let plan = schedule(alloc, space, parts, keep)?;
    let all = space.one();
    Ok(image(space, parts, &plan, all)?)
}

// How many parts F's relation has, and whether its states step to all states.
fn parts_and_image(space: &mut Space, problem: &Problem, frame: &Frame) -> Result<(u32, bool), Fail>
    requires sync { problem.now.topology.mode ≡ Sync }
    requires fits { FitsProblem space.old problem.now None frame.now }
{
    let parts = steps_of_f(space, problem, frame)?;
    let all = image_of_all(space, frame, &parts)?;
    Ok((parts.len(), all == Ref::ONE))
}

fn relate_text(alloc: Global, text: &[u8]) -> Result<(u32, bool), Fail> {
    let texts = (text, COPY.as_bytes());
    let (problem, mut space, frame) = laid_problem(alloc, texts, ("u", "v"), 100_000)?;
    let counts = parts_and_image(&mut space, &problem, &frame);
    drop_problem(problem);
    drop_frame(frame);
    drop_space(space);
    counts
}

fn chain_of(alloc: Global, latches: u32) -> Result<(u32, bool), Fail> {
    let text = chain_text(alloc, latches)?;
    relate_text(alloc, &text)
}

#[test]
fn relates_a_wide_network(rt: HostRuntime) -> Result<(), Fail> {
    assert!(rt; chain_of(rt.alloc(), 40)? == (43, true));
    Ok(())
}

// How many parts F's relation has, or why there is none.
fn parts_of(space: &mut Space, problem: &Problem, frame: &Frame) -> Result<u32, SolveFault>
    requires sync { problem.now.topology.mode ≡ Sync }
    requires fits { FitsProblem space.old problem.now None frame.now }
{
    let parts = steps_of_f(space, problem, frame)?;
    Ok(parts.len())
}

// The relation of the wire in a space of so many nodes.
fn wire_in(alloc: Global, limit: u32) -> Result<Result<u32, SolveFault>, Fail> {
    let texts = (WIRE.as_bytes(), COPY.as_bytes());
    let (problem, mut space, frame) = laid_problem(alloc, texts, ("u", "v"), limit)?;
    let parts = parts_of(&mut space, &problem, &frame);
    drop_problem(problem);
    drop_frame(frame);
    drop_space(space);
    Ok(parts)
}

#[test]
fn tells_a_full_table(rt: HostRuntime) -> Result<(), Fail> {
    let full = SolveFault::NodeLimit {
        limit: 1,
        states: 0,
    };
    assert!(rt; wire_in(rt.alloc(), 1)? == Err(full));
    assert!(rt; wire_in(rt.alloc(), 100)? == Ok(3));
    assert!(rt; full.to_string(rt.alloc())?.as_str() == "node limit 1 reached after 0 states");
    assert!(rt; SolveFault::Memory.to_string(rt.alloc())?.as_str() == "out of memory");
    Ok(())
}
