//! In which order the parts of a relation are taken, and which levels are hidden when.

ghost use Rattle.std.specs.Prelude.{◌≡◌, ◌<◌, ◌^◌, [], length, slice_index, slice_index_or};

use bdd_ops::LevelSet;
use std::marker::Model;

/// In which order the parts of a relation are taken, and which levels are hidden when.
#[derive(Drop)]
pub struct Schedule {
    order: Vec<u32>,
    first: LevelSet,
    hides: Vec<LevelSet>,
}

impl Model for Schedule {
    ghost use Rattle.std.specs.Prelude.{◌≡◌, ◌<◌, ◌^◌, length};
    ghost use Rattle.part_relation.specs.Plans.{Plan};

    ghost Value = { Plan };

    ghost view = { λ s. record { order = s.order.items; first = s.first; hides = s.hides.items } };

    ghost invariant = { λ s. (length s.hides.items ≡ length s.order.items) × (length s.order.items < 2 ^ 32) };
}

impl Schedule {
    // The parts in this order, and the levels for each place.
    pub(crate) fn of(order: Vec<u32>, first: LevelSet, hides: Vec<LevelSet>) -> Schedule
        requires places { length hides.items ≡ length order.items }
        requires few { length order.items < 2 ^ 32 }
        ensures { result ≡ record { order = order.items; first = first; hides = hides.items } }
    {
        Schedule {
            order,
            first,
            hides,
        }
    }

    /// How many places there are: one for each part.
    pub fn len(&self) -> u32
        ensures { result ≡ length self.now.order }
    {
        self.order.len() as u32
    }

    /// The part that is taken in place `k`.
    pub fn part(&self, k: u32) -> u32
        requires { k < length self.now.order }
        ensures { result ≡ slice_index self.now.order k }
    {
        self.order[k as usize]
    }

    /// The levels that are hidden once the part in place `k` is taken.
    pub fn hides(&self, k: u32) -> &LevelSet
        requires { k < length self.now.order }
        ensures { result.now ≡ slice_index_or self.now.hides k [] }
    {
        &self.hides[k as usize]
    }

    /// The levels that are hidden before a part is taken.
    pub fn first(&self) -> &LevelSet
        ensures { result.now ≡ self.now.first }
    {
        &self.first
    }
}
