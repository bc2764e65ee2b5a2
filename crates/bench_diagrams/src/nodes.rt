//! The layer of nodes: the diagrams of the threshold functions of the lowest bits, made twice in one space.
//!
//! "At least k of the lowest r bits are 1" is the constant 1 for k = 0 and the constant 0 for k > r. Else it is a node
//! that asks the topmost of these bits, with the ends "at least k of the lowest r - 1 bits" and "at least k - 1 of
//! them". So r levels have r * (r + 1) / 2 nodes, all different.

ghost use Rattle.std.specs.Prelude.{◌≡◌, ◌==◌, ◌+◌, ◌*◌, ◌/◌, ◌<◌, ◌≤◌, All, IfOk, IfSome, IfNone, count_by, vec_len, zip};
ghost use Rattle.bench_diagrams.specs.Rows.{StandsAt};

use crate::fault::Fault;
use node_table::{MAX_LEVELS, Ref, Space};
use std::alloc::Global;
use std::fmt;

/// What was counted of a space.
#[derive(Drop)]
pub struct NodeCounts {
    pub held: u64,
    pub peak: u64,
    pub found: u64,
}

impl fmt::Display for NodeCounts {
    fn fmt<W: fmt::Write>(&self, f: &mut fmt::Formatter<W>) -> fmt::Result {
        let held = self.held;
        let peak = self.peak;
        let found = self.found;
        write!(f, "{held} nodes, {peak} at most, {found} found again")
    }
}

/// Makes so many nodes twice, and counts the nodes that are held and those that were found.
pub fn count_nodes(alloc: Global, size: u32) -> Result<NodeCounts, Fault>
    ensures held { IfOk result (λ counts. counts.held ≡ size) }
    ensures peak { IfOk result (λ counts. counts.peak ≡ size) }
    ensures found { IfOk result (λ counts. counts.found ≡ size) }
{
    let Some(rows) = rows_for(size) else {
        return Err(Fault::TooManyNodes);
    };
    let wanted = size as u64;
    let mut space = Space::with_limit(alloc, wanted)?;
    let _first = space.push_levels(rows);
    let made = make_nodes(alloc, &mut space, size)?;
    let again = make_nodes(alloc, &mut space, size)?;
    let counts = NodeCounts {
        held: space.len(),
        peak: space.peak(),
        found: same_refs(made.as_slice(), again.as_slice()) as u64,
    };
    if counts.held != wanted || counts.peak != wanted || counts.found != wanted {
        return Err(Fault::Differs);
    }
    Ok(counts)
}

// How many rows have room for so many nodes.
fn rows_for(size: u32) -> Option<u32>
    ensures levels { IfSome result (λ rows. rows ≤ MAX_LEVELS) }
    ensures room { IfSome result (λ rows. size ≤ rows * (rows + 1) / 2) }
    ensures too_many { IfNone result (MAX_LEVELS * (MAX_LEVELS + 1) / 2 < size) }
{
    for rows in 0..=MAX_LEVELS {
        if size <= rows * (rows + 1) / 2 {
            return Some(rows);
        }
    }
    None
}

// Makes so many nodes, row by row from the lowest level on.
fn make_nodes(alloc: Global, space: &mut Space, size: u32) -> Result<Vec<Ref>, Fault>
    ensures few { IfOk result (λ made. vec_len made ≤ size) }
    ensures levels { space.new.levels ≡ space.old.levels }
{
    let mut made = Vec::with_capacity(alloc, size as usize)?;
    let mut row = vec![in alloc; space.zero()]?;
    let mut level = space.levels();
    while level > 0 {
        level -= 1;
        row = make_row(
            alloc,
            space,
            level,
            row.as_slice(),
            &mut made,
            size as usize,
        )?;
    }
    Ok(made)
}

// Makes the nodes of a level, as many as are left to be made, on the row below. A row starts at k = 1 and ends with
// the constant 0.
fn make_row(
    alloc: Global,
    space: &mut Space,
    level: u32,
    below: &[Ref],
    made: &mut Vec<Ref>,
    size: usize,
) -> Result<Vec<Ref>, Fault>
    requires below { All (StandsAt space.old (level + 1)) below.now }
    requires level { level + 1 ≤ space.old.levels }
    requires few { vec_len made.old ≤ size }
    ensures row { IfOk result (λ row. All (StandsAt space.new level) row.items) }
    ensures few { vec_len made.new ≤ size }
    ensures levels { space.new.levels ≡ space.old.levels }
{
    let mut row = Vec::new(alloc);
    let mut hi = space.one();
    for lo in below {
        if made.len() < size {
            let node = space.mk(level, *lo, hi)?;
            row.push(node)?;
            made.push(node)?;
            hi = *lo;
        }
    }
    row.push(space.zero())?;
    Ok(row)
}

// At how many places two lists have the same ref.
fn same_refs(some: &[Ref], others: &[Ref]) -> usize
    ensures { result ≡ count_by (λ pair. pair.0 == pair.1) (zip some.now others.now) }
{
    some.iter()
        .zip(others)
        .filter(|(one, other)| one == other)
        .count()
}
