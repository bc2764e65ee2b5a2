//! From the words to the solution: every step that may refuse, in its order.

ghost use Rattle.std.specs.Prelude.{◌≡◌, ◌⊎◌, map, Ok, Err, IfOk, IfErr, OnErr};
ghost use Rattle.net_model.specs.Files.{file_of};
ghost use Rattle.net_model.specs.Files.{IsSoundFile};
ghost use Rattle.job_words.specs.Jobs.{job_of};
ghost use Rattle.balm_top.specs.Refusals.{problem_for, AcceptsNames};
ghost use Rattle.balm_top.specs.Stops.{StopsRightly, SolvesRightly, StopsWork, IsWorkable, IsSolved};

use fault_lines::Stop;
use io_core::Shelf;
use job_files::read_file;
use job_words::{Args, Request, request_of};
use net_model::{File, Mode, NameList};
use net_problem::Problem;
use solution_text::{Halt, Solution};
use std::alloc::{AllocError, Global};

/// Reads the job and its files, and solves it.
pub fn solution_of<'a, H: Shelf>(
    alloc: Global,
    words: &'a Args,
    shelf: &mut H,
) -> Result<Solution, Stop<'a>>
    ensures solved { IfOk result (SolvesRightly words.now (H.holds shelf.old)) }
    ensures stopped { IfErr result (StopsRightly words.now (H.holds shelf.old) (H.faults shelf.old) (H.faults shelf.new)) }
    ensures kept { H.holds shelf.new ≡ H.holds shelf.old }
{
    let request = match request_of(alloc, words) {
        Ok(Some(request)) => request,
        Ok(None) => return Err(Stop::NoJob),
        Err(_) => return Err(Stop::Memory),
    };
    let f = match read_file(alloc, shelf, request.f) {
        Ok(net) => net,
        Err(stop) => return Err(stop),
    };
    let s = match read_file(alloc, shelf, request.s) {
        Ok(net) => net,
        Err(stop) => return Err(stop),
    };
    solve(alloc, &request, f, s)
}

/// Tests the names and the bits, and solves.
fn solve<'a>(alloc: Global, request: &Request<'a>, f: File, s: File) -> Result<Solution, Stop<'a>>
    requires f_sound { IsSoundFile (file_of f) }
    requires s_sound { IsSoundFile (file_of s) }
    ensures solved { IfOk result (λ solution. IsWorkable (job_of request.now) (file_of f) (file_of s)
        × IsSolved (job_of request.now) (file_of f) (file_of s) solution) }
    ensures stopped { IfErr result (StopsWork (job_of request.now) (file_of f) (file_of s)) }
{
    let problem = match named_problem(alloc, request, f, s) {
        Ok(problem) => problem,
        Err(stop) => return Err(stop),
    };
    solution_or_stop(solution_text::solution_of(alloc, &problem))
}

/// The problem of a job whose files are these.
fn named_problem<'a>(
    alloc: Global,
    request: &Request<'a>,
    f: File,
    s: File,
) -> Result<Problem, Stop<'a>>
    requires f_sound { IsSoundFile (file_of f) }
    requires s_sound { IsSoundFile (file_of s) }
    ensures ok { IfOk result (λ problem. problem ≡ problem_for (job_of request.now) (file_of f) (file_of s)) }
    ensures names { IfOk result (λ problem. AcceptsNames (job_of request.now) (file_of f) (file_of s)) }
    ensures stopped { IfErr result (StopsWork (job_of request.now) (file_of f) (file_of s)) }
{
    let Ok(ins) = list_of(alloc, &request.ins) else {
        return Err(Stop::Memory);
    };
    let Ok(outs) = list_of(alloc, &request.outs) else {
        return Err(Stop::Memory);
    };
    match Problem::build(alloc, Mode::Sync, f, s, &ins, &outs) {
        Ok(problem) => Ok(problem),
        Err(refusal) => Err(Stop::BadNames(refusal)),
    }
}

/// The solution, or the stop.
fn solution_or_stop<'a>(found: Result<Solution, Halt>) -> Result<Solution, Stop<'a>>
    ensures ok { IfOk result (λ solution. found ≡ Ok solution) }
    ensures err { OnErr result (((result ≡ Err Stop.TooManyBits) × (found ≡ Err Halt.Bits)) ⊎ (result ≡ Err Stop.Memory)) }
{
    match found {
        Ok(solution) => Ok(solution),
        Err(Halt::Bits) => Err(Stop::TooManyBits),
        Err(Halt::Memory) => Err(Stop::Memory),
    }
}

/// The names as a list.
fn list_of(alloc: Global, names: &[&str]) -> Result<NameList, AllocError>
    ensures { IfOk result (λ list. list ≡ map (λ name. name.now) names.now) }
{
    let mut list = NameList::new(alloc);
    for name in names {
        list.push(name.as_bytes())?;
    }
    Ok(list)
}
