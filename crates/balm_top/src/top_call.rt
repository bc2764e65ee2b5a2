//! The top call.

ghost use Rattle.std.specs.Prelude.{◌≡◌, ◌⊎◌, if◌then◌else◌, Err, OnOk, OnErr};
ghost use Rattle.io_core.specs.Causes.{Rose};
ghost use Rattle.io_core.specs.Gained.{gained, GainsFrontOf};
ghost use Rattle.job_words.specs.Jobs.{HasNoJob};
ghost use Rattle.fault_lines.specs.Statuses.{IsFinished};
ghost use Rattle.fault_lines.specs.Stops.{stop_status, stop_line};
ghost use Rattle.fault_lines.specs.Told.{IsTold};
ghost use Rattle.balm_top.specs.Answers.{SolveIsExact, ReachesOutput, UsageRightly, RefusedRightly, ReadFaultRightly, WriteFaultRightly, MemoryRightly, KeepsOut, GainsFrontOfAnswer};
ghost use Rattle.balm_top.specs.Stops.{AnswersRightly, text_of};

use crate::problem::solution_of;
use fault_lines::{Status, Stop, tell};
use io_core::{Shelf, Sink, WriteFault, write_all};
use job_words::Args;
use solution_text::Solution;
use std::alloc::Global;

/// Does all that the program does. `words` are the words after the program's name; files come from `shelf`, the answer
/// goes to `out`, and the line of a refusal to `err`.
pub fn run<H: Shelf, O: Sink, E: Sink>(
    alloc: Global,
    words: &Args,
    shelf: &mut H,
    out: &mut O,
    err: &mut E,
) -> Status
    // What is printed means exactly the largest solution.
    ensures exact { SolveIsExact words.now (H.holds shelf.old) (O.contents out.old) (O.contents out.new) result }

    // It comes only where no step before refuses. Words without a job are told as such.
    ensures reached { IsFinished result → ReachesOutput words.now (H.holds shelf.old) }
    ensures usage { result ≡ Status.Usage → HasNoJob words.now }
    ensures no_job { UsageRightly words.now result }

    // Every other status has its cause, and its line was told.
    ensures refused { RefusedRightly words.now (H.holds shelf.old)
        (IsTold (E.contents err.old) (E.contents err.new) (E.faults err.old) (E.faults err.new) (E.wants err.old) (E.wants err.new))
        result }
    ensures read_fault { ReadFaultRightly words.now (H.holds shelf.old) (H.faults shelf.old) (H.faults shelf.new)
        (IsTold (E.contents err.old) (E.contents err.new) (E.faults err.old) (E.faults err.new) (E.wants err.old) (E.wants err.new))
        result }
    ensures write_fault { WriteFaultRightly words.now (H.holds shelf.old) (O.faults out.old) (O.faults out.new)
        (IsTold (E.contents err.old) (E.contents err.new) (E.faults err.old) (E.faults err.new) (E.wants err.old) (E.wants err.new))
        result }
    ensures memory { MemoryRightly words.now (H.holds shelf.old) (O.contents out.old) (O.contents out.new) (O.wants out.old) (O.wants out.new)
        (IsTold (E.contents err.old) (E.contents err.new) (E.faults err.old) (E.faults err.new) (E.wants err.old) (E.wants err.new))
        result }
    ensures no_node_limit { result ≡ Status.NodeLimit → ⊥ }

    // What out and err have gained.
    ensures out_kept { KeepsOut (O.contents out.old) (O.contents out.new) result }
    ensures out_front { GainsFrontOfAnswer words.now (H.holds shelf.old) (O.contents out.old) (O.contents out.new) result }
    ensures err_kept { IsFinished result → E.contents err.new ≡ E.contents err.old }
    ensures held { H.holds shelf.new ≡ H.holds shelf.old }
{
    match solution_of(alloc, words, shelf) {
        Ok(solution) => answer(&solution, out, err),
        Err(stop) => refuse(&stop, err),
    }
}

/// Tells why there is no solution.
fn refuse<'a, E: Sink>(stop: &Stop<'a>, err: &mut E) -> Status
    ensures status { result ≡ stop_status stop.now }
    ensures told { IsTold (E.contents err.old) (E.contents err.new) (E.faults err.old) (E.faults err.new) (E.wants err.old) (E.wants err.new)
        (stop_line stop.now) }
{
    stop.tell(err);
    stop.status()
}

/// Prints the solution.
fn answer<O: Sink, E: Sink>(solution: &Solution, out: &mut O, err: &mut E) -> Status
    ensures answers { AnswersRightly solution.now (O.contents out.old) (O.contents out.new) (O.faults out.old) (O.faults out.new) (O.wants out.old) (O.wants out.new)
        (IsTold (E.contents err.old) (E.contents err.new) (E.faults err.old) (E.faults err.new) (E.wants err.old) (E.wants err.new))
        (E.contents err.new ≡ E.contents err.old) result }
{
    match print_text(solution, out) {
        Ok(()) => verdict(solution.has_word),
        Err(WriteFault::Failed) => {
            tell(err, &[b"balm: cannot write\n"]);
            Status::WriteFault
        }
        Err(WriteFault::Memory) => {
            tell(err, &[b"balm: out of memory\n"]);
            Status::Memory
        }
    }
}

/// Prints the text of the solution.
fn print_text<O: Sink>(solution: &Solution, out: &mut O) -> Result<(), WriteFault>
    ensures ok { OnOk result (O.contents out.new ≡ gained (O.contents out.old) (text_of solution.now)) }
    ensures refused { OnErr result (GainsFrontOf (O.contents out.old) (O.contents out.new) (text_of solution.now)) }
    ensures failed { result ≡ Err WriteFault.Failed → Rose (O.faults out.old) (O.faults out.new) }
    ensures memory { result ≡ Err WriteFault.Memory
        → (O.contents out.new ≡ O.contents out.old) ⊎ Rose (O.wants out.old) (O.wants out.new) }
{
    write_all(out, &solution.text)
}

/// The status of a job that was done.
fn verdict(has_word: bool) -> Status
    ensures { result ≡ (if has_word then Status.Done else Status.Negative) }
{
    if has_word {
        Status::Done
    } else {
        Status::Negative
    }
}
