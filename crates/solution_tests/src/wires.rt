//! The largest solution where F is a wire and S a copy: X has to be a wire too. Its text was worked out by hand.

ghost use Rattle.std.specs.Prelude.{◌≡◌, None, IfOk, IsTrue};
ghost use Rattle.mv_encoding.specs.Layouts.{levels_of, IsLaid};
ghost use Rattle.net_model.specs.declared.class.Mode.TheVariants.{Sync};
ghost use Rattle.net_frame.specs.Frames.{FitsProblem};
ghost use Rattle.det_core.specs.Automata.{MeetsRule, ReadsAlone};
ghost use Rattle.det_core.specs.Languages.{letters_of};
ghost use Rattle.aut_format.specs.Rows.{HaveTextNames};

use crate::letters::word_of_two;
use aut_format::{rows_of, write_auto};
use det_core::{Det, SolveFault};
use io_core::{HonestSink, MemSink, WriteFault};
use laid_problems::{drop_frame, drop_problem, drop_space, laid_problem, problem_of};
use mv_encoding::Coding;
use net_frame::Frame;
use net_problem::Problem;
use node_table::Space;
use solution_text::{Solution, solution_of};
use std::alloc::{AllocError, Global};
use std::test::Fail;
use sync_solve::safe_words;

const WIRE: &[u8] =
    b".model wire\n.inputs i v\n.outputs u o\n.table i -> u\n- =i\n.table v -> o\n- =v\n.end\n";

const COPY: &[u8] = b".model copy\n.inputs i\n.outputs o\n.table i -> o\n- =i\n.end\n";

const NAMES: (&str, &str) = ("u", "v");

const TEXT: &[u8] = b".model solution
.inputs u v
.outputs Acc
.mv u 2 0 1
.mv v 2 0 1
.mv CS,NS 2 s0 s1
.latch NS CS
.reset CS
s0
.table CS -> Acc
s0 1
s1 0
.table u v CS -> NS
0 0 s0 s0
1 1 s0 s0
0 1 s0 s1
1 0 s0 s1
- - s1 s1
.end
";

// The values of u and v at two letters, and whether the word is safe.
const WORDS: &[((u32, u32), (u32, u32), bool)] = &[
    ((0, 0), (1, 1), true),
    ((1, 1), (1, 1), true),
    ((0, 1), (0, 0), false),
    ((0, 0), (1, 0), false),
];

// The automaton of the safe words, whose letters have their levels.
fn solved(space: &mut Space, problem: &Problem, frame: &Frame) -> Result<Det, SolveFault>
    requires sync { problem.now.topology.mode ≡ Sync }
    requires fits { FitsProblem space.old problem.now None frame.now }
    ensures rule { IfOk result (MeetsRule space.new (letters_of frame.now.x)) }
    ensures reads { IfOk result (ReadsAlone space.new (levels_of frame.now.x)) }
{
    if space.levels() > 8_000 {
        return Err(SolveFault::Memory);
    }
    safe_words(space, problem, frame)
}

// Whether the letters have their levels.
fn are_laid(space: &Space, letters: &Coding) -> bool
    ensures { IsTrue result → IsLaid letters.now space.now }
{
    letters.first() == 0 && letters.bits() <= space.levels()
}

fn has_words(det: &Det, space: &Space, letters: &Coding) -> Result<bool, Fail>
    requires rule { MeetsRule space.now (letters_of letters.now) det.now }
    requires reads { ReadsAlone space.now (levels_of letters.now) det.now }
{
    for (first, second, is_safe) in WORDS {
        if !are_laid(space, letters) {
            return Ok(false);
        }
        let word = word_of_two(space.allocator(), letters.scope(), *first, *second)?;
        if det.accepts(space, letters, &word) != *is_safe {
            return Ok(false);
        }
    }
    Ok(true)
}

// Whether the text is printed, and a sink with room for ten bytes gets the first ten.
fn is_printed(det: &Det, space: &Space, letters: &Coding) -> bool
    requires names { HaveTextNames letters.now.scope }
    requires rule { MeetsRule space.now (letters_of letters.now) det.now }
    requires reads { ReadsAlone space.now (levels_of letters.now) det.now }
{
    let alloc = space.allocator();
    let mut sink = HonestSink::new(alloc);
    let mut small = MemSink::new(alloc, Vec::new(alloc), 10);
    write_auto(det, space, letters, b"solution", &mut sink).is_ok()
        && sink.taken() == TEXT
        && write_auto(det, space, letters, b"solution", &mut small) == Err(WriteFault::Failed)
        && small.taken() == b".model sol".as_slice()
}

// The names of X's variables can stand in a text.
fn name_letters(space: &Space, problem: &Problem, frame: &Frame)
    requires sync { problem.now.topology.mode ≡ Sync }
    requires fits { FitsProblem space.now problem.now None frame.now }
    ensures { HaveTextNames frame.now.x.scope }
{
    let _mode = problem.mode();
}

// Whether it has two states and five rows.
fn is_counted(det: &Det, space: &Space, letters: &Coding) -> Result<bool, AllocError>
    requires rule { MeetsRule space.now (letters_of letters.now) det.now }
    requires reads { ReadsAlone space.now (levels_of letters.now) det.now }
{
    let rows = rows_of(det, space, letters)?;
    Ok(det.states() == 2 && rows == 5)
}

// Whether the automaton of the safe words is as it was worked out.
fn is_solved(space: &mut Space, problem: &Problem, frame: &Frame) -> Result<bool, Fail>
    requires sync { problem.now.topology.mode ≡ Sync }
    requires fits { FitsProblem space.old problem.now None frame.now }
{
    name_letters(space, problem, frame);
    let det = solved(space, problem, frame)?;
    let letters = frame.x();
    let right = is_counted(&det, space, letters)?
        && is_printed(&det, space, letters)
        && has_words(&det, space, letters)?;
    Ok(right)
}

#[test]
fn solves_a_wire_and_a_copy(rt: HostRuntime) -> Result<(), Fail> {
    let (problem, mut space, frame) = laid_problem(rt.alloc(), (WIRE, COPY), NAMES, 1_000)?;
    let right = is_solved(&mut space, &problem, &frame);
    drop_problem(problem);
    drop_frame(frame);
    drop_space(space);
    assert!(rt; right?);
    Ok(())
}

// Whether a space of four nodes is full then, and that is told.
fn is_full(space: &mut Space, problem: &Problem, frame: &Frame) -> bool
    requires sync { problem.now.topology.mode ≡ Sync }
    requires fits { FitsProblem space.old problem.now None frame.now }
{
    match solved(space, problem, frame) {
        Err(SolveFault::NodeLimit { limit, .. }) => limit == 4 && space.len() == 4,
        Err(SolveFault::Memory) | Ok(_) => false,
    }
}

#[test]
fn tells_a_full_table(rt: HostRuntime) -> Result<(), Fail> {
    let (problem, mut space, frame) = laid_problem(rt.alloc(), (WIRE, COPY), NAMES, 4)?;
    let right = is_full(&mut space, &problem, &frame);
    drop_problem(problem);
    drop_frame(frame);
    drop_space(space);
    assert!(rt; right);
    Ok(())
}

// Whether it has a word, and the text that was worked out.
fn is_text(solution: &Solution) -> bool {
    solution.has_word && solution.text.as_slice() == TEXT
}

// Drops it, in a function that does nothing else.
fn drop_solution(_solution: Solution) {}

// Whether the problem is answered that text.
fn has_text(alloc: Global, problem: &Problem) -> Result<bool, Fail>
    requires { problem.now.topology.mode ≡ Sync }
{
    match solution_of(alloc, problem) {
        Ok(solution) => {
            let right = is_text(&solution);
            drop_solution(solution);
            Ok(right)
        }
        Err(_) => Err(Fail::new("no solution")),
    }
}

#[test]
fn gives_the_text(rt: HostRuntime) -> Result<(), Fail> {
    let problem = problem_of(rt.alloc(), (WIRE, COPY), NAMES)?;
    let right = has_text(rt.alloc(), &problem);
    drop_problem(problem);
    assert!(rt; right?);
    Ok(())
}
