//! Diagrams drawn step by step, so that a case is plain data and a test has nothing to prove.

ghost use Rattle.std.specs.Prelude.{◌≡◌, IfOk};
ghost use Rattle.node_table.specs.Table.{IsValid, Grows, top_of};
ghost use Rattle.part_relation.specs.Plans.{AreValid};

use crate::parts::{image_keeping, parts_of};
use bdd_ops::{LevelSet, and, and_exists, exists, ite, not, or};
use node_table::{MAX_LEVELS, MkFault, Ref, Space};
use part_relation::{hide, lift};
use std::alloc::{AllocError, Global};
use std::marker::Model;

/// One diagram more. A number names a diagram: 0 and 1 are the constants, and 2 is the first that was drawn.
#[derive(Clone, Copy)]
pub(crate) enum Step {
    Node(u32, usize, usize),
    Not(usize),
    And(usize, usize),
    Or(usize, usize),
    Ite(usize, usize, usize),
    Lift(usize, usize),
    Hide(usize, u32),
    Exists(usize, u32),
    AndExists(usize, usize, u32),
}

/// A space, and the diagrams that were drawn in it.
#[derive(Drop)]
pub(crate) struct Drawing {
    space: Space,
    refs: Vec<Ref>,
}

impl Model for Drawing {
    ghost use Rattle.node_table.specs.Table.{Table};
    ghost use Rattle.part_relation.specs.Plans.{AreValid};

    ghost Value = { Table };

    ghost view = { λ d. d.space };

    ghost invariant = { λ d. AreValid d.space d.refs.items };
}

impl Drawing {
    /// These diagrams over so many levels, with place for `limit` nodes.
    pub(crate) fn of(
        alloc: Global,
        levels: u8,
        limit: u32,
        steps: &[Step],
    ) -> Result<Drawing, MkFault> {
        let mut drawing = match Drawing::empty(alloc, levels, limit) {
            Ok(drawing) => drawing,
            Err(_) => return Err(MkFault::Memory),
        };
        drawing.draw_all(steps)?;
        Ok(drawing)
    }

    // The constants alone.
    fn empty(alloc: Global, levels: u8, limit: u32) -> Result<Drawing, AllocError> {
        let mut space = Space::with_limit(alloc, u64::from(limit))?;
        let _first = space.push_levels(u32::from(levels));
        let refs = Vec::from_slice(alloc, &[space.zero(), space.one()])?;
        Ok(Drawing { space, refs })
    }

    /// The diagram with this number, and the constant 0 where there is none.
    pub(crate) fn at(&self, k: usize) -> Ref
        ensures { IsValid self.now result }
    {
        ref_at(&self.space, &self.refs, k)
    }

    pub(crate) fn space(&self) -> &Space
        ensures { result.now ≡ self.now }
    {
        &self.space
    }

    /// Whether these are the same diagrams, two by two.
    pub(crate) fn has_same(&self, pairs: &[(usize, usize)]) -> bool {
        for pair in pairs {
            if self.at(pair.0) != self.at(pair.1) {
                return false;
            }
        }
        true
    }

    /// Whether these diagrams have these levels; the constants have none.
    pub(crate) fn has_tops(&self, tops: &[(usize, Option<u32>)]) -> bool {
        for top in tops {
            if self.space.level(self.at(top.0)) != top.1 {
                return false;
            }
        }
        true
    }

    /// Whether the diagram is a node with these ends.
    pub(crate) fn has_ends(&self, k: usize, lo: usize, hi: usize) -> bool {
        let r = self.at(k);
        match self.space.level(r) {
            Some(_) => self.space.lo(r) == self.at(lo) && self.space.hi(r) == self.at(hi),
            None => false,
        }
    }

    /// The levels, the nodes, the most nodes so far, and how many there may be.
    pub(crate) fn counts(&self) -> (u32, u64, u64, u64) {
        (
            self.space.levels(),
            self.space.len(),
            self.space.peak(),
            self.space.limit(),
        )
    }

    /// Puts one level below the others, where it has place.
    pub(crate) fn add_level(&mut self) -> Option<u32> {
        if self.space.levels() < MAX_LEVELS {
            Some(self.space.push_levels(1))
        } else {
            None
        }
    }

    /// Whether the space is full for this step.
    pub(crate) fn is_full(&mut self, step: Step) -> bool {
        self.draw(step) == Err(MkFault::Full)
    }

    /// Draws one diagram more.
    pub(crate) fn draw(&mut self, step: Step) -> Result<(), MkFault> {
        let r = make(&mut self.space, &self.refs, step)?;
        self.keep(r)
    }

    // Keeps a diagram behind the others.
    fn keep(&mut self, r: Ref) -> Result<(), MkFault>
        requires { IsValid self.old r }
    {
        match self.refs.push(r) {
            Ok(()) => Ok(()),
            Err(_) => Err(MkFault::Memory),
        }
    }

    /// Draws the image of a diagram under some parts, with all levels hidden but these.
    pub(crate) fn image(
        &mut self,
        parts: &[usize],
        keep: &[u32],
        from: usize,
    ) -> Result<(), MkFault> {
        let parts = parts_of(self, parts)?;
        let from = self.at(from);
        let r = image_keeping(&mut self.space, &parts, keep, from)?;
        self.keep(r)
    }

    /// Draws these diagrams.
    pub(crate) fn draw_all(&mut self, steps: &[Step]) -> Result<(), MkFault> {
        for step in steps {
            self.draw(*step)?;
        }
        Ok(())
    }
}

// The diagram with this number, and the constant 0 where there is none.
fn ref_at(space: &Space, refs: &[Ref], k: usize) -> Ref
    requires { AreValid space.now refs.now }
    ensures { IsValid space.now result }
{
    match refs.get(k) {
        Some(r) => *r,
        None => space.zero(),
    }
}

// The level of a diagram; that of a constant is the number of levels.
fn top(space: &Space, r: Ref) -> u32
    requires { IsValid space.now r }
    ensures { result ≡ top_of space.now r }
{
    match space.level(r) {
        Some(level) => level,
        None => space.levels(),
    }
}

// A node where it can stand, and else its low end.
fn node(space: &mut Space, level: u32, lo: Ref, hi: Ref) -> Result<Ref, MkFault>
    requires lo { IsValid space.old lo }
    requires hi { IsValid space.old hi }
    ensures valid { IfOk result (IsValid space.new) }
    ensures grows { Grows space.old space.new }
{
    if level < top(space, lo) && level < top(space, hi) {
        space.mk(level, lo, hi)
    } else {
        Ok(lo)
    }
}

// A set of one level.
fn one_level(space: &Space, level: u32) -> Result<LevelSet, MkFault> {
    match LevelSet::of(space.allocator(), &[level]) {
        Ok(set) => Ok(set),
        Err(_) => Err(MkFault::Memory),
    }
}

// The diagram of one step.
fn make(space: &mut Space, refs: &[Ref], step: Step) -> Result<Ref, MkFault>
    requires { AreValid space.old refs.now }
    ensures valid { IfOk result (IsValid space.new) }
    ensures grows { Grows space.old space.new }
{
    match step {
        Step::Node(level, lo, hi) => {
            let lo = ref_at(space, refs, lo);
            let hi = ref_at(space, refs, hi);
            node(space, level, lo, hi)
        }
        Step::Not(f) => {
            let f = ref_at(space, refs, f);
            not(space, f)
        }
        Step::And(f, g) => {
            let f = ref_at(space, refs, f);
            let g = ref_at(space, refs, g);
            and(space, f, g)
        }
        Step::Or(f, g) => {
            let f = ref_at(space, refs, f);
            let g = ref_at(space, refs, g);
            or(space, f, g)
        }
        Step::Ite(f, g, h) => {
            let f = ref_at(space, refs, f);
            let g = ref_at(space, refs, g);
            let h = ref_at(space, refs, h);
            ite(space, f, g, h)
        }
        Step::Lift(f, valid) => {
            let f = ref_at(space, refs, f);
            let valid = ref_at(space, refs, valid);
            lift(space, f, valid)
        }
        Step::Hide(f, level) => {
            let f = ref_at(space, refs, f);
            let set = one_level(space, level)?;
            hide(space, f, &set)
        }
        Step::Exists(f, level) => {
            let f = ref_at(space, refs, f);
            let set = one_level(space, level)?;
            exists(space, f, &set)
        }
        Step::AndExists(f, g, level) => {
            let f = ref_at(space, refs, f);
            let g = ref_at(space, refs, g);
            let set = one_level(space, level)?;
            and_exists(space, f, g, &set)
        }
    }
}
