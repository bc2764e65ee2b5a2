//! The safe words of a problem.

ghost use Rattle.std.specs.Prelude.{◌≡◌, ◌≤◌, ◌↔◌, Option, IfOk, IfErr};
ghost use Rattle.node_table.specs.Table.{Grows};
ghost use Rattle.mv_encoding.specs.Layouts.{levels_of};
ghost use Rattle.net_model.specs.Words as words;
ghost use Rattle.net_model.specs.Equation.{IsSafe};
ghost use Rattle.net_model.specs.Problems as problems;
ghost use Rattle.net_frame.specs.Frames.{FitsProblem};
ghost use Rattle.det_core.specs.Automata.{MeetsRule, IsComplete, ReadsAlone};
ghost use Rattle.det_core.specs.Languages.{letters_of, HasLetters};
ghost use Rattle.det_core.specs.Faults.{IsLimit};
ghost use Rattle.sync_solve.specs.Files.{FileWords};

use crate::composing::composed;
use crate::machine::Machine;
use crate::others::others;
use det_core::{Det, SolveFault, complement};
use net_frame::Frame;
use net_model::{Mode, Slot};
use net_problem::Problem;
use node_table::Space;

/// The deterministic automaton of the safe words of a problem in synchronous mode, over X's letters: a word is safe where each
/// joint word whose X part it is and whose F part is a word of F has its part in S. The automaton is complete.
///
/// The words that S hasn't are made an automaton and composed with F. The words over X's letters that are left lead out of S, and
/// all others are safe (Villa and others 2012, chapter 2). New levels come below all others for the states of S's automaton.
pub fn safe_words(space: &mut Space, problem: &Problem, frame: &Frame) -> Result<Det, SolveFault>
    requires mode { problem.now.topology.mode ≡ Mode.Sync }
    requires fits { (third : Option problems.File) × FitsProblem space.old problem.now third frame.now }
    requires few { space.old.levels ≤ 8000 }
    ensures words { IfOk result (λ det. (word : words.Word) → HasLetters space.new frame.now.x det word ↔ IsSafe problem.now.topology (FileWords problem.now.f) (FileWords problem.now.s) word) }
    ensures rule { IfOk result (MeetsRule space.new (letters_of frame.now.x)) }
    ensures complete { IfOk result (IsComplete space.new (letters_of frame.now.x)) }
    ensures reads { IfOk result (ReadsAlone space.new (levels_of frame.now.x)) }
    ensures grows { Grows space.old space.new }
    ensures limit { IfErr result (IsLimit space.new (λ states. Unit {0})) }
{
    // The files of a problem are sound.
    let _mode = problem.mode();
    let f = Machine::of_file(space, frame, Slot::F, problem.f())?;
    let outside = others(space, frame, Slot::S, problem.s())?;
    let unsafe_words = composed(space, frame, f, &outside)?;
    Ok(complement(unsafe_words))
}
