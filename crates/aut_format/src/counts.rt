//! How many rows an automaton has, without printing them.

ghost use Rattle.std.specs.Prelude.{◌≡◌, ◌-◌, ◌^◌, ◌<◌, ℕ, Some, length, min, nat_eq, if◌then◌else◌, All, IfOk, OnOk};
ghost use Rattle.indexmap.specs.IndexMap.{get};
ghost use Rattle.node_table.specs.Table.{IsValid};
ghost use Rattle.bdd_walk.specs.Paths.{paths_of};
ghost use Rattle.mv_encoding.specs.Layouts.{levels_of};
ghost use Rattle.det_core.specs.Automata.{AreGuardsValid, MeetsRule, ReadsAlone};
ghost use Rattle.det_core.specs.Languages.{letters_of};
ghost use Rattle.aut_format.specs.Rows.{listing_of_det};
ghost use Rattle.aut_format.specs.Counts.{at_most_64_bits, paths_of_moves};

use det_core::{Det, Move};
use indexmap::IndexMap;
use mv_encoding::Coding;
use node_table::{Ref, Space};
use std::alloc::AllocError;

/// The number of rows of the last table that `write_auto` prints, and u64's greatest value where there are more. It goes
/// through each node once.
pub fn rows_of(det: &Det, space: &Space, coding: &Coding) -> Result<u64, AllocError>
    requires rule { MeetsRule space.now (letters_of coding.now) det.now }
    requires reads { ReadsAlone space.now (levels_of coding.now) det.now }
    ensures { IfOk result (λ rows. rows ≡ min (2 ^ 64 - 1) (length (listing_of_det space.now coding.now det.now).rows)) }
{
    // The number of rows is that of the paths of the guards, under each coding.
    let _first = coding.first();
    let mut counts = Counts::new(space);
    let mut rows = 0u64;
    for state in 0..det.states() {
        let more = counts.of_moves(space, det.moves(state))?;
        rows = rows.saturating_add(more);
    }
    Ok(rows)
}

// What was counted so far: of each node how many paths it has.
#[derive(Drop)]
struct Counts {
    paths: IndexMap<Ref, u64>,
}

impl Counts {
    ghost use Rattle.std.specs.Prelude.{nat_eq};
    ghost use Rattle.indexmap.specs.IndexMap.{get};
    ghost use Rattle.aut_format.specs.Memos.{count_of, AreRight};

    fn new(space: &Space) -> Counts
        ensures { AreRight space.now result }
    {
        Counts {
            paths: IndexMap::new(space.allocator()),
        }
    }

    // How many paths the guards of these moves have.
    fn of_moves(&mut self, space: &Space, moves: &[Move]) -> Result<u64, AllocError>
        requires valid { AreGuardsValid space.now moves.now }
        requires right { AreRight space.now self.old }
        ensures count { IfOk result (λ count. count ≡ at_most_64_bits (length (paths_of_moves space.now moves.now))) }
        ensures right { OnOk result (AreRight space.now self.new) }
    {
        let mut count = 0u64;
        for m in moves {
            let more = self.of_ref(space, m.guard)?;
            count = count.saturating_add(more);
        }
        Ok(count)
    }

    // How many paths a diagram has.
    fn of_ref(&mut self, space: &Space, r: Ref) -> Result<u64, AllocError>
        requires valid { IsValid space.now r }
        requires right { AreRight space.now self.old }
        ensures count { IfOk result (λ count. count ≡ at_most_64_bits (length (paths_of space.now.nodes r))) }
        ensures right { OnOk result (AreRight space.now self.new) }
    {
        let Some(_level) = space.level(r) else {
            return Ok(of_constant(r));
        };
        if let Some(count) = self.recall(r) {
            return Ok(count);
        }
        let low = self.of_ref(space, space.lo(r))?;
        let high = self.of_ref(space, space.hi(r))?;
        let count = low.saturating_add(high);
        self.note(r, count)?;
        Ok(count)
    }

    fn recall(&self, r: Ref) -> Option<u64>
        ensures { result ≡ count_of self.now r }
    {
        match self.paths.get(&r) {
            Some(count) => Some(*count),
            None => None,
        }
    }

    fn note(&mut self, r: Ref, count: u64) -> Result<(), AllocError>
        ensures { OnOk result ((s : ℕ) → count_of self.new s ≡ (if nat_eq r s then Some count else count_of self.old s)) }
    {
        self.paths.insert(r, count)?;
        Ok(())
    }
}

// The constant 1 has one path, and the constant 0 has none.
fn of_constant(r: Ref) -> u64
    requires { r < 2 }
    ensures { result ≡ r }
{
    if r == Ref::ONE { 1 } else { 0 }
}
