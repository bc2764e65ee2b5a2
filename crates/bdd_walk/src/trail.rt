//! Where a walk over the paths of a diagram stands.

ghost use Rattle.std.specs.Prelude.{◌≡◌, ◌<◌, ◌≤◌, [], ◌∷◌, ◌++◌, IfOk, IsTrue, IsFalse, vec_len, vec_capacity};
ghost use Rattle.node_table.specs.Table.{IsValid};
ghost use Rattle.bdd_walk.specs.Paths.{path_of, paths_of};
ghost use Rattle.bdd_walk.specs.Walk.{paths_left, IsTrail};

use crate::paths::Lit;
use node_table::{Ref, Space};
use std::alloc::{AllocError, Global};

/// A way down a diagram, and what is still to be walked beside it and below it.
#[derive(Drop)]
pub(crate) struct Trail {
    /// The literals on the way.
    pub lits: Vec<Lit>,

    /// For each of them the end of its node for the bit 1 where that is still to be walked, and else 0.
    pub others: Vec<Ref>,

    /// The diagram at the end of the way where its paths are still to be walked, and else 0.
    pub below: Ref,
}

impl Trail {
    /// The start of a walk. A way has at most as many literals as there are levels, and there is room for them.
    pub(crate) fn over(alloc: Global, space: &Space, f: Ref) -> Result<Trail, AllocError>
        requires { IsValid space.now f }
        ensures trail { IfOk result (IsTrail space.now) }
        ensures left { IfOk result (λ trail. paths_left space.now.nodes trail ≡ paths_of space.now.nodes f) }
    {
        let levels = space.levels() as usize;
        let lits = Vec::with_capacity(alloc, levels)?;
        let others = Vec::with_capacity(alloc, levels)?;
        Ok(Trail {
            lits,
            others,
            below: f,
        })
    }

    /// Goes on to the next path, if there is one.
    pub(crate) fn next(&mut self, space: &Space) -> bool
        requires { IsTrail space.now self.old }
        ensures trail { IsTrail space.now self.new }
        ensures some { IsTrue result → paths_left space.now.nodes self.old ≡ path_of self.new.lits.items ∷ paths_left space.now.nodes self.new }
        ensures none { IsFalse result → (paths_left space.now.nodes self.old ≡ []) × (paths_left space.now.nodes self.new ≡ []) }
    {
        let zero = space.zero();
        self.turn(space);
        if self.below == zero {
            return false;
        }
        self.descend(space);
        self.below = zero;
        true
    }

    // Where nothing is left below, goes back to the last literal whose bit 1 is still to be walked, and takes that bit.
    fn turn(&mut self, space: &Space)
        requires { IsTrail space.now self.old }
        ensures trail { IsTrail space.now self.new }
        ensures left { paths_left space.now.nodes self.new ≡ paths_left space.now.nodes self.old }
        ensures done { self.new.below ≡ 0 → self.new.lits.items ≡ [] }
    {
        let zero = space.zero();
        if self.below != zero {
            return;
        }
        while let Some(lit) = self.lits.pop() {
            let Some(other) = self.others.pop() else {
                unreachable!();
            };
            if other != zero {
                self.push(lit.level, true, zero);
                self.below = other;
                return;
            }
        }
    }

    // Goes down to the constant 1, by the end for the bit 0 wherever a path goes there.
    fn descend(&mut self, space: &Space)
        requires trail { IsTrail space.now self.old }
        requires some { self.old.below ≡ 0 → ⊥ }
        ensures trail { IsTrail space.now self.new }
        ensures left { paths_left space.now.nodes self.new ≡ paths_left space.now.nodes self.old }
        ensures one { self.new.below ≡ 1 }
    {
        let zero = space.zero();
        while let Some(level) = space.level(self.below) {
            let lo = space.lo(self.below);
            let hi = space.hi(self.below);
            if lo == zero {
                self.push(level, true, zero);
                self.below = hi;
            } else {
                self.push(level, false, hi);
                self.below = lo;
            }
        }
    }

    // Goes one literal on. There is room for it.
    fn push(&mut self, level: u32, value: bool, other: Ref)
        requires lits { vec_len self.old.lits < vec_capacity self.old.lits }
        requires others { vec_len self.old.others < vec_capacity self.old.others }
        ensures lits { self.new.lits.items ≡ self.old.lits.items ++ record { level = level; value = value } ∷ [] }
        ensures others { self.new.others.items ≡ self.old.others.items ++ other ∷ [] }
        ensures below { self.new.below ≡ self.old.below }
        ensures lits_room { vec_capacity self.old.lits ≤ vec_capacity self.new.lits }
        ensures others_room { vec_capacity self.old.others ≤ vec_capacity self.new.others }
    {
        match self.lits.push(Lit { level, value }) {
            Ok(()) => {}
            Err(_) => unreachable!(),
        }
        match self.others.push(other) {
            Ok(()) => {}
            Err(_) => unreachable!(),
        }
    }
}
