//! A problem is solved on a frame.

ghost use Rattle.std.specs.Prelude.{◌≡◌, ◌≤◌, Option, IfOk};
ghost use Rattle.net_model.specs.Problems.{File};
ghost use Rattle.net_frame.specs.Frames.{FitsProblem};
ghost use Rattle.solution_text.specs.Solutions.{IsSolutionOf};

use crate::solution::Solution;
use aut_format::auto_text;
use det_core::SolveFault;
use det_words::has_some_word;
use net_frame::Frame;
use net_model::Mode;
use net_problem::Problem;
use node_table::Space;
use sync_solve::safe_words;

/// The safe words of a problem as a text under the model name `solution`.
pub(crate) fn solved(
    space: &mut Space,
    problem: &Problem,
    frame: &Frame,
) -> Result<Solution, SolveFault>
    requires mode { problem.now.topology.mode ≡ Mode.Sync }
    requires fits { (third : Option File) × FitsProblem space.old problem.now third frame.now }
    requires few { space.old.levels ≤ 8000 }
    ensures { IfOk result (IsSolutionOf problem.now) }
{
    // The names of a problem are good.
    let _mode = problem.mode();
    let safe = safe_words(space, problem, frame)?;
    // There is a state 0, and a number tells how many there are.
    let _count = safe.states();
    let has_word = has_some_word(space, &safe)?;
    let text = auto_text(&safe, space, frame.x(), b"solution")?;
    Ok(Solution { text, has_word })
}
