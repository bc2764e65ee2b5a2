//! The paths of a diagram to the constant 1, one after another.

ghost use Rattle.std.specs.Prelude.{◌≡◌, [], slice_get, MatchOption, IfOk};
ghost use Rattle.node_table.specs.Table.{IsValid};
ghost use Rattle.bdd_walk.specs.Paths.{path_of, paths_of, ArePathsOf};

use crate::trail::Trail;
use node_table::{Ref, Space};
use std::alloc::{AllocError, Global};
use std::marker::Model;

/// A level, and the bit that stands there.
#[derive(Clone, Copy, PartialEq, Eq, Debug)]
pub struct Lit {
    pub level: u32,
    pub value: bool,
}

/// The paths of a diagram that are still to come. They borrow the space, so it can't change while they are walked, and each
/// path is lent until the next one is asked for.
#[derive(Drop)]
pub struct Paths<'t> {
    space: &'t Space,
    trail: Trail,
}

impl<'t> Model for Paths<'t> {
    ghost use Rattle.std.specs.Prelude.{List};
    ghost use Rattle.bdd_walk.specs.Paths.{Path};

    // the paths that are still to come
    ghost Value = { List Path };

    ghost use Rattle.bdd_walk.specs.Walk.{paths_left, IsTrail};

    ghost view = { λ p. paths_left p.space.now.nodes p.trail };

    ghost invariant = { λ p. IsTrail p.space.now p.trail };
}

impl<'t> Paths<'t> {
    ghost use Rattle.std.specs.Borrow.{sem};
    ghost use Rattle.bdd_walk.specs.Lending.{EndsAs};

    /// The paths of a diagram. All memory that the walk needs is taken here.
    pub fn over(alloc: Global, space: &'t Space, f: Ref) -> Result<Paths<'t>, AllocError>
        requires { IsValid space.now f }
        ensures paths { IfOk result (λ paths. paths ≡ paths_of space.now.nodes f) }
        ensures meaning { IfOk result (λ paths. ArePathsOf space.now f paths) }
    {
        let trail = Trail::over(alloc, space, f)?;
        Ok(Paths { space, trail })
    }

    /// The next path, the smaller ones first, with the bit 0 before the bit 1; its levels rise. `None` at the end, and ever
    /// after.
    pub fn next_path(&mut self) -> Option<&[Lit]>
        ensures path { MatchOption result (self.old ≡ []) (λ path. slice_get self.old 0 ≡ Some (path_of path.now)) }
        ensures* left { sem 𝓛 (EndsAs self.entry result) }
    {
        if self.trail.next(self.space) {
            Some(&self.trail.lits)
        } else {
            None
        }
    }
}
