//! Tables of nodes that grow.

ghost use Rattle.std.specs.Prelude.{◌≡◌, ◌<◌, ◌≤◌, ◌^◌, None, Err, IfOk, OnOk};
ghost use Rattle.net_problem.specs.ProblemBits.{problem_bits};
ghost use Rattle.solution_text.specs.Solutions.{IsSolutionOf};

use crate::solution::{Halt, Solution};
use crate::solving::solved;
use det_core::SolveFault;
use net_frame::Frame;
use net_model::Mode;
use net_problem::Problem;
use node_table::Space;
use std::alloc::Global;

// The most bits of a problem.
const MOST_BITS: u64 = 2_000;

// How many nodes the first table may hold.
const FIRST_LIMIT: u64 = 1_024;

// No table may hold more nodes.
const MOST_NODES: u64 = 1 << 62;

/// The text of the largest solution of a problem in synchronous mode. It is refused exactly where the problem has more than
/// 2,000 bits. The work is done in a table of 1,024 nodes; where that is full it is begun again in an empty one of twice as
/// many, and so on as long as memory lasts.
pub fn solution_of(alloc: Global, problem: &Problem) -> Result<Solution, Halt>
    requires { problem.now.topology.mode ≡ Mode.Sync }
    ensures solved { IfOk result (IsSolutionOf problem.now) }
    ensures few { OnOk result (problem_bits problem.now None ≤ 2000) }
    ensures bits { result ≡ Err Halt.Bits → 2000 < problem_bits problem.now None }
    ensures over { 2000 < problem_bits problem.now None → result ≡ Err Halt.Bits }
{
    if problem.bits(None) > MOST_BITS {
        return Err(Halt::Bits);
    }
    let mut limit = FIRST_LIMIT;
    while limit <= MOST_NODES {
        match solution_within(alloc, problem, limit) {
            Ok(solution) => return Ok(solution),
            Err(SolveFault::NodeLimit { .. }) => limit *= 2,
            Err(SolveFault::Memory) => return Err(Halt::Memory),
        }
    }
    Err(Halt::Memory)
}

// The same in a table of so many nodes.
fn solution_within(alloc: Global, problem: &Problem, limit: u64) -> Result<Solution, SolveFault>
    requires mode { problem.now.topology.mode ≡ Mode.Sync }
    requires limit { limit ≤ 2 ^ 62 }
    ensures { IfOk result (IsSolutionOf problem.now) }
{
    let mut space = Space::with_limit(alloc, limit)?;
    let Ok(frame) = Frame::of(alloc, &mut space, problem, None) else {
        return Err(SolveFault::Memory);
    };
    solved(&mut space, problem, &frame)
}
