//! The layers of the subset construction, on relations that are shift registers. From the state in which each latch is 0
//! each set has one state, and there is a set for each state: with n latches 2^n. From each of them each letter leads to
//! another one.

ghost use Rattle.std.specs.Prelude.{◌≡◌, ◌+◌, ◌*◌, ◌^◌, ◌<◌, ◌≤◌, ℕ, length, IfOk, IsTrue};
ghost use Rattle.det_core.specs.Automata.{state_at};

use crate::fault::Fault;
use crate::registers::{all_zero, copying_parts, letter_levels, state_map};
use det_core::Det;
use node_table::{MAX_LEVELS, Space};
use std::alloc::Global;
use std::fmt;
use subset_build::determinise;

/// How many nodes a space may hold.
const MOST_NODES: u64 = 67_108_864;

/// The most latches in a row.
const MOST_LATCHES: u32 = 20;

/// The most bits of a letter that are copied at once.
const MOST_BITS: u32 = 10;

/// What was counted of an automaton and its space.
#[derive(Drop)]
pub struct SubsetCounts {
    pub states: u64,

    /// To how many different states each state leads.
    pub targets: u64,
    pub held: u64,
    pub peak: u64,
}

impl fmt::Display for SubsetCounts {
    fn fmt<W: fmt::Write>(&self, f: &mut fmt::Formatter<W>) -> fmt::Result {
        let states = self.states;
        let targets = self.targets;
        let held = self.held;
        let peak = self.peak;
        write!(
            f,
            "{states} states, {targets} targets each, {held} nodes, {peak} at most"
        )
    }
}

/// The subset construction of so many latches in a row, of which the first has the letter next and each other one what the
/// latch before it has now.
pub fn count_subsets(alloc: Global, size: u32) -> Result<SubsetCounts, Fault>
    ensures states { IfOk result (λ counts. counts.states ≡ 2 ^ size) }
    ensures targets { IfOk result (λ counts. counts.targets ≡ 2) }
{
    if size == 0 || size > MOST_LATCHES {
        return Err(Fault::LatchesOutOfRange);
    }
    count_register(alloc, 1, size)
}

/// The subset construction of so many latches, each of which has a bit of the letter next.
pub fn count_targets(alloc: Global, size: u32) -> Result<SubsetCounts, Fault>
    ensures states { IfOk result (λ counts. counts.states ≡ 2 ^ size) }
    ensures targets { IfOk result (λ counts. counts.targets ≡ 2 ^ size) }
{
    if size == 0 || size > MOST_BITS {
        return Err(Fault::LatchesOutOfRange);
    }
    count_register(alloc, size, size)
}

// The subset construction of a register in a new space, whose states and targets have to be so many.
fn count_register(alloc: Global, letters: u32, latches: u32) -> Result<SubsetCounts, Fault>
    requires letters { letters ≤ MOST_BITS }
    requires latches { latches ≤ MOST_LATCHES }
    ensures states { IfOk result (λ counts. counts.states ≡ 2 ^ latches) }
    ensures targets { IfOk result (λ counts. counts.targets ≡ 2 ^ letters) }
{
    let mut space = Space::with_limit(alloc, MOST_NODES)?;
    let _first = space.push_levels(letters + 2 * latches);
    let det = determinised(&mut space, letters, latches)?;
    let counts = SubsetCounts {
        states: det.states(),
        targets: power_of_two(letters),
        held: space.len(),
        peak: space.peak(),
    };
    if counts.states != power_of_two(latches) || !have_targets(&det, counts.targets) {
        return Err(Fault::Differs);
    }
    Ok(counts)
}

// The automaton of a register, all states of which accept.
fn determinised(space: &mut Space, letters: u32, latches: u32) -> Result<Det, Fault>
    requires few { letters + 2 * latches ≤ MAX_LEVELS }
    requires levels { letters + 2 * latches ≤ space.old.levels }
{
    let alloc = space.allocator();
    let keep = letter_levels(alloc, letters)?;
    let state = state_map(alloc, letters, latches)?;
    let parts = copying_parts(space, letters, latches)?;
    let start = all_zero(space, letters, latches)?;
    let all = space.one();
    let det = determinise(space, &parts, start, all, &keep, &state, all)?;
    Ok(det)
}

// Whether each state leads to just so many states.
fn have_targets(det: &Det, targets: u64) -> bool
    ensures { IsTrue result → (k : ℕ) → k < length det.now → length (state_at det.now k).moves ≡ targets }
{
    for state in 0..det.states() {
        if det.moves(state).len() as u64 != targets {
            return false;
        }
    }
    true
}

fn power_of_two(exponent: u32) -> u64
    requires { exponent < 64 }
    ensures { result ≡ 2 ^ exponent }
{
    1u64 << exponent
}
