//! The layers of conjunctions: the diagram of "x equals y, in each of so many pairs of bits", with the levels in two
//! orders.
//!
//! The equality of a pair takes four nodes: each bit, the negation of y, and the choice between y and its negation. A
//! pair is joined to those of lower levels. Where each x stands beside its y, a joined pair takes three nodes more, so
//! that there are 7 * n - 3 nodes, and the whole conjunction's diagram has 3 * n of them. Where all x stand above all y,
//! a diagram has to keep each x that it has asked. Joining a pair to m others takes 4 * 2^m - 1 nodes more, which makes
//! 4 * 2^n + 3 * n - 7 nodes.

ghost use Rattle.std.specs.Prelude.{◌≡◌, ◌+◌, ◌*◌, ◌^◌, ◌<◌, ◌≤◌, IfOk, IfSome};
ghost use Rattle.node_table.specs.Table.{IsValid, Grows};

use crate::fault::Fault;
use bdd_ops::{and, ite, not};
use node_table::{MAX_LEVELS, MkFault, Ref, Space};
use std::alloc::Global;
use std::fmt;

/// How many nodes a space may hold.
const MOST_NODES: u64 = 67_108_864;

/// The most pairs whose levels are interleaved.
const MOST_INTERLEAVED: u32 = MAX_LEVELS / 2;

/// The most pairs whose levels are in two blocks.
const MOST_BLOCKED: u32 = 23;

/// What was counted of a space.
#[derive(Drop)]
pub struct ConjunctionCounts {
    pub levels: u32,
    pub held: u64,
    pub peak: u64,
}

impl fmt::Display for ConjunctionCounts {
    fn fmt<W: fmt::Write>(&self, f: &mut fmt::Formatter<W>) -> fmt::Result {
        let levels = self.levels;
        let held = self.held;
        let peak = self.peak;
        write!(f, "{levels} levels, {held} nodes, {peak} at most")
    }
}

/// Where the levels of the pairs stand.
#[derive(Clone, Copy)]
pub enum Order {
    /// Each x stands just above its y.
    Interleaved,

    /// All x stand above all y.
    Blocked,
}

/// Makes the conjunction of so many pairs whose levels are interleaved, and counts the nodes.
pub fn count_interleaved(alloc: Global, size: u32) -> Result<ConjunctionCounts, Fault>
    ensures levels { IfOk result (λ counts. counts.levels ≡ 2 * size) }
    ensures held { IfOk result (λ counts. counts.held + 3 ≡ 7 * size) }
    ensures peak { IfOk result (λ counts. counts.peak + 3 ≡ 7 * size) }
{
    let Some(wanted) = interleaved_nodes(size) else {
        return Err(Fault::PairsOutOfRange);
    };
    count_conjunction(alloc, size, Order::Interleaved, wanted)
}

/// Makes the conjunction of so many pairs with all x above all y, and counts the nodes.
pub fn count_blocked(alloc: Global, size: u32) -> Result<ConjunctionCounts, Fault>
    ensures levels { IfOk result (λ counts. counts.levels ≡ 2 * size) }
    ensures held { IfOk result (λ counts. counts.held + 7 ≡ 4 * 2 ^ size + 3 * size) }
    ensures peak { IfOk result (λ counts. counts.peak + 7 ≡ 4 * 2 ^ size + 3 * size) }
{
    let Some(wanted) = blocked_nodes(size) else {
        return Err(Fault::PairsOutOfRange);
    };
    count_conjunction(alloc, size, Order::Blocked, wanted)
}

// How many nodes there are where the levels are interleaved, for a number of pairs that is in range.
fn interleaved_nodes(pairs: u32) -> Option<u64>
    ensures few { IfSome result (λ nodes. pairs ≤ MOST_INTERLEAVED) }
    ensures nodes { IfSome result (λ nodes. nodes + 3 ≡ 7 * pairs) }
{
    if pairs == 0 || pairs > MOST_INTERLEAVED {
        return None;
    }
    Some(7 * pairs as u64 - 3)
}

// How many nodes there are where all x stand above all y, for a number of pairs that is in range.
fn blocked_nodes(pairs: u32) -> Option<u64>
    ensures few { IfSome result (λ nodes. pairs ≤ MOST_BLOCKED) }
    ensures nodes { IfSome result (λ nodes. nodes + 7 ≡ 4 * 2 ^ pairs + 3 * pairs) }
{
    if pairs == 0 || pairs > MOST_BLOCKED {
        return None;
    }
    Some(4 * power_of_two(pairs) + 3 * pairs as u64 - 7)
}

fn power_of_two(exponent: u32) -> u64
    requires { exponent ≤ MOST_BLOCKED }
    ensures power { result ≡ 2 ^ exponent }
    ensures some { 1 ≤ result }
    ensures few { result ≤ 8388608 }
{
    1u64 << exponent
}

// Makes the conjunction of so many pairs in a new space, and counts its nodes, which have to be so many.
fn count_conjunction(
    alloc: Global,
    pairs: u32,
    order: Order,
    wanted: u64,
) -> Result<ConjunctionCounts, Fault>
    requires { 2 * pairs ≤ MAX_LEVELS }
    ensures levels { IfOk result (λ counts. counts.levels ≡ 2 * pairs) }
    ensures held { IfOk result (λ counts. counts.held ≡ wanted) }
    ensures peak { IfOk result (λ counts. counts.peak ≡ wanted) }
{
    let mut space = Space::with_limit(alloc, MOST_NODES)?;
    let _first = space.push_levels(2 * pairs);
    let _all = conjunction(&mut space, pairs, order)?;
    let counts = ConjunctionCounts {
        levels: space.levels(),
        held: space.len(),
        peak: space.peak(),
    };
    if counts.held != wanted || counts.peak != wanted {
        return Err(Fault::Differs);
    }
    Ok(counts)
}

// The diagram that is 1 where the bits of each pair are equal.
fn conjunction(space: &mut Space, pairs: u32, order: Order) -> Result<Ref, MkFault>
    requires few { 2 * pairs ≤ MAX_LEVELS }
    requires levels { 2 * pairs ≤ space.old.levels }
    ensures ok { IfOk result (λ all. IsValid space.new all) }
    ensures levels { space.new.levels ≡ space.old.levels }
{
    let mut all = space.one();
    let mut pair = pairs;
    while pair > 0 {
        pair -= 1;
        let (x, y) = levels_of(order, pairs, pair);
        let same = equality(space, x, y)?;
        all = and(space, all, same)?;
    }
    Ok(all)
}

// The levels of the bits of a pair.
fn levels_of(order: Order, pairs: u32, pair: u32) -> (u32, u32)
    requires few { 2 * pairs ≤ MAX_LEVELS }
    requires pair { pair < pairs }
    ensures x { result.0 < 2 * pairs }
    ensures y { result.1 < 2 * pairs }
    ensures below { result.0 < result.1 }
{
    match order {
        Order::Interleaved => (2 * pair, 2 * pair + 1),
        Order::Blocked => (pair, pairs + pair),
    }
}

// The diagram that is 1 where the bits of two levels are equal.
fn equality(space: &mut Space, x: u32, y: u32) -> Result<Ref, MkFault>
    requires x { x < space.old.levels }
    requires y { y < space.old.levels }
    ensures ok { IfOk result (λ same. IsValid space.new same) }
    ensures grows { Grows space.old space.new }
    ensures levels { space.new.levels ≡ space.old.levels }
{
    let x = bit(space, x)?;
    let y = bit(space, y)?;
    let other = not(space, y)?;
    ite(space, x, y, other)
}

// The diagram that is the bit of a level.
fn bit(space: &mut Space, level: u32) -> Result<Ref, MkFault>
    requires { level < space.old.levels }
    ensures ok { IfOk result (λ bit. IsValid space.new bit) }
    ensures grows { Grows space.old space.new }
    ensures levels { space.new.levels ≡ space.old.levels }
{
    let zero = space.zero();
    let one = space.one();
    space.mk(level, zero, one)
}
