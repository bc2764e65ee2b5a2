//! The layers of relations: the text of a network is read, its steps are made as parts on diagrams, and all states are
//! stepped once.

ghost use Rattle.std.specs.Prelude.{◌≡◌, ◌+◌, ◌-◌, ◌*◌, ◌^◌, ◌<◌, ◌≤◌, All, IfOk, IsTrue, None};
ghost use Rattle.net_model.specs.Problems as problems;
ghost use Rattle.net_model.specs.Problems.{IsSoundFile};
ghost use Rattle.net_model.specs.declared.class.Mode.TheVariants.{Sync};
ghost use Rattle.net_frame.specs.Frames.{FitsProblem};
ghost use Rattle.part_relation.specs.Plans.{AreValid};

use crate::fault::Fault;
use bdd_ops::LevelSet;
use bench_texts::push_number;
use blifmv_reader::read_net;
use net_model::{File, Mode, NameList, Slot, TextFault};
use net_problem::Problem;
use net_relation::{Frame, SolveFault, relation_of};
use node_table::Space;
use part_relation::{Parts, image, schedule};
use std::alloc::{AllocError, Global};
use std::fmt;

/// As many nodes as a space can hold.
const MOST_NODES: u64 = 1 << 62;

/// An odd number, so that its multiples up to 2^20 are different below it.
const SCATTER: u32 = 695_423;

/// A specification that takes everything.
const EVERY: &[u8] = b".model every\n";

/// What was counted of a relation.
#[derive(Drop)]
pub struct RelationCounts {
    pub parts: u64,
    pub levels: u32,
    pub nodes: u64,
}

impl fmt::Display for RelationCounts {
    fn fmt<W: fmt::Write>(&self, f: &mut fmt::Formatter<W>) -> fmt::Result {
        let parts = self.parts;
        let levels = self.levels;
        let nodes = self.nodes;
        write!(f, "{parts} parts, {levels} levels, {nodes} nodes")
    }
}

/// The relation of a chain of so many latches, each behind a table that inverts the latch before it, and of their image.
pub fn count_chain(alloc: Global, size: u32) -> Result<RelationCounts, Fault>
    ensures parts { IfOk result (λ counts. counts.parts ≡ 2 * size + 1) }
{
    let text = chain_text(alloc, size)?;
    let counts = relate(alloc, text.as_slice(), "l0")?;
    if counts.parts != 2 * size as u64 + 1 {
        return Err(Fault::Differs);
    }
    Ok(counts)
}

/// The relation of one table of so many different rows over five variables of 16 values.
pub fn count_drawn(alloc: Global, size: u32) -> Result<RelationCounts, Fault>
    ensures parts { IfOk result (λ counts. counts.parts ≡ 2) }
{
    let text = table_text(alloc, size)?;
    let counts = relate(alloc, text.as_slice(), "a")?;
    if counts.parts != 2 {
        return Err(Fault::Differs);
    }
    Ok(counts)
}

// Makes the relation of a network for an X with one output, and the image of all states.
fn relate(alloc: Global, text: &[u8], out: &str) -> Result<RelationCounts, Fault> {
    let problem = problem_of(alloc, text, out)?;
    relate_problem(alloc, &problem)
}

fn relate_problem(alloc: Global, problem: &Problem) -> Result<RelationCounts, Fault>
    requires { problem.now.topology.mode ≡ Sync }
{
    let mut space = Space::with_limit(alloc, MOST_NODES)?;
    relate_in(alloc, &mut space, problem)
}

fn relate_in(alloc: Global, space: &mut Space, problem: &Problem) -> Result<RelationCounts, Fault>
    requires sync { problem.now.topology.mode ≡ Sync }
    requires levels { space.old.levels ≤ 4000 }
{
    let frame = Frame::of(alloc, space, problem, None)?;
    count_relation(space, problem, &frame)
}

// Makes the steps of F, takes the image of all states, and counts.
fn count_relation(
    space: &mut Space,
    problem: &Problem,
    frame: &Frame,
) -> Result<RelationCounts, Fault>
    requires sync { problem.now.topology.mode ≡ Sync }
    requires fits { FitsProblem space.old problem.now None frame.now }
{
    let parts = steps_of_f(space, problem, frame)?;
    step_all(space, frame, &parts)?;
    Ok(RelationCounts {
        parts: parts.len() as u64,
        levels: space.levels(),
        nodes: space.len(),
    })
}

// The steps of F.
fn steps_of_f(space: &mut Space, problem: &Problem, frame: &Frame) -> Result<Parts, SolveFault>
    requires sync { problem.now.topology.mode ≡ Sync }
    requires fits { FitsProblem space.old problem.now None frame.now }
    ensures { IfOk result (AreValid space.new) }
{
    let _mode = problem.mode();
    relation_of(space, frame, Slot::F, problem.f())
}

fn file_of(alloc: Global, text: &[u8]) -> Result<File, TextFault>
    ensures { IfOk result (λ file. IsSoundFile (problems.file_of file)) }
{
    match read_net(alloc, text) {
        Ok(net) => Ok(File::Net(net)),
        Err(fault) => Err(fault),
    }
}

fn problem_of(alloc: Global, text: &[u8], out: &str) -> Result<Problem, Fault>
    ensures { IfOk result (λ problem. problem.topology.mode ≡ Sync) }
{
    let f = file_of(alloc, text)?;
    let s = file_of(alloc, EVERY)?;
    let ins = NameList::new(alloc);
    let mut outs = NameList::new(alloc);
    outs.push(out.as_bytes())?;
    match Problem::build(alloc, Mode::Sync, f, s, &ins, &outs) {
        Ok(problem) => Ok(problem),
        Err(_) => Err(Fault::Differs),
    }
}

// Whether all of these are levels of the space.
fn are_levels(space: &Space, levels: &LevelSet) -> bool
    ensures { IsTrue result → All (λ level. level < space.now.levels) levels.now }
{
    let count = space.levels();
    for place in 0..levels.len() {
        match levels.at(place) {
            Some(level) => {
                if level >= count {
                    return false;
                }
            }
            None => return false,
        }
    }
    true
}

// What all states step to.
fn step_all(space: &mut Space, frame: &Frame, parts: &Parts) -> Result<(), Fault>
    requires { AreValid space.old parts.now }
{
    let alloc = space.allocator();
    let keep = frame.next(Slot::F);
    if !are_levels(space, keep) {
        return Err(Fault::Differs);
    }
    let plan = schedule(alloc, space, parts, keep)?;
    let all = space.one();
    let _next = image(space, parts, &plan, all)?;
    Ok(())
}

// Puts words and the name of a signal at the end of a text.
fn push_signal(
    alloc: Global,
    text: &mut Vec<u8>,
    words: &[u8],
    number: u32,
) -> Result<(), AllocError> {
    text.extend_from_slice(words)?;
    push_number(alloc, text, number)
}

// A table that inverts a signal, and the latch behind it.
fn push_link(alloc: Global, text: &mut Vec<u8>, number: u32) -> Result<(), AllocError>
    requires { number < 2 ^ 32 - 1 }
{
    push_signal(alloc, text, b".table l", number)?;
    push_signal(alloc, text, b" -> d", number)?;
    push_signal(alloc, text, b"\n0 1\n1 0\n.latch d", number)?;
    push_signal(alloc, text, b" l", number + 1)?;
    text.extend_from_slice(b"\n")
}

fn chain_text(alloc: Global, size: u32) -> Result<Vec<u8>, AllocError> {
    let mut text = Vec::new(alloc);
    text.extend_from_slice(b".model chain\n.inputs l0\n")?;
    for number in 0..size {
        push_link(alloc, &mut text, number)?;
    }
    text.extend_from_slice(b".end\n")?;
    Ok(text)
}

// A value of 16, by its place in a number.
fn push_value(alloc: Global, text: &mut Vec<u8>, number: u32, place: u32) -> Result<(), AllocError>
    requires { place < 5 }
{
    push_number(alloc, text, (number >> (4 * place)) % 16)?;
    text.push(b' ')?;
    Ok(())
}

fn table_text(alloc: Global, size: u32) -> Result<Vec<u8>, AllocError> {
    let mut text = Vec::new(alloc);
    text.extend_from_slice(
        b".model drawn\n.inputs a b c d\n.outputs e\n.mv a,b,c,d,e 16\n.table a b c d -> e\n",
    )?;
    for row in 0..size {
        let number = row.wrapping_mul(SCATTER) % (1 << 20);
        for place in 0..5 {
            push_value(alloc, &mut text, number, place)?;
        }
        text.push(b'\n')?;
    }
    text.extend_from_slice(b".end\n")?;
    Ok(text)
}
