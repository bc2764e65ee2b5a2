//! The table of nodes, in which each node stands once.

ghost use Rattle.std.specs.Prelude.{◌≡◌, ◌+◌, ◌^◌, ◌<◌, ◌≤◌, ◌↔◌, [], length, Some, None, Err, IfOk, OnErr, IfSome, IfNone, IsNone, false, true};
ghost use Rattle.std.specs.declared.alloc.Global.{Global};
ghost use Rattle.node_table.specs.Table.{number_of_next, node_of, top_of, level_of, lo_of, hi_of, with_node, IsNew, FitsOn, IsTable, IsValid, IsConstant, Grows, Makes, IsRefused, IsEnd};

use crate::node::{MAX_LEVELS, Node, Ref};
use indexmap::IndexSet;
use std::alloc::{AllocError, Global};
use std::marker::Model;
use thiserror::Error;

/// Why no node was made.
#[derive(Clone, Copy, PartialEq, Eq, Debug, Error)]
pub enum MkFault {
    /// The node is new, and the space holds as many nodes as it may.
    #[error("the node table is full")]
    Full,

    /// There is no memory for one more node.
    #[error("out of memory")]
    Memory,
}

/// The nodes of reduced ordered binary decision diagrams over one order of levels (Bryant 1986), in one
/// unique table for all of them (Brace, Rudell, Bryant 1990). Level 0 is the topmost.
#[derive(Drop)]
pub struct Space {
    held: IndexSet<Node>,
    levels: u32,
    limit: u64,
    peak: u64,
}

impl Model for Space {
    ghost use Rattle.node_table.specs.Table.{Table, IsTable, table_of};

    ghost Value = { Table };

    ghost view = { λ s. table_of s.held.keys s.levels s.limit s.peak };

    ghost invariant = { λ s. IsTable (table_of s.held.keys s.levels s.limit s.peak) };
}

impl Space {
    /// A space without levels and nodes, which may hold `limit` nodes. It takes no memory yet.
    pub fn with_limit(alloc: Global, limit: u64) -> Result<Space, AllocError>
        requires { limit ≤ 2 ^ 62 }
        ensures empty { IfOk result (λ space. space ≡ record { nodes = []; levels = 0; limit = limit; peak = 0 }) }
        ensures table { IfOk result (λ space. IsTable space) }
    {
        Ok(Space {
            held: IndexSet::new(alloc),
            levels: 0,
            limit,
            peak: 0,
        })
    }

    /// The number of levels.
    pub fn levels(&self) -> u32
        ensures levels { result ≡ self.now.levels }
        ensures table { IsTable self.now }
    {
        self.levels
    }

    /// Puts `n` levels below all others, and answers the first of them.
    pub fn push_levels(&mut self, n: u32) -> u32
        requires { self.old.levels + n ≤ MAX_LEVELS }
        ensures first { result ≡ self.old.levels }
        ensures levels { self.new ≡ record self.old { levels = self.old.levels + n } }
        ensures grows { Grows self.old self.new }
    {
        let first = self.levels;
        self.levels += n;
        first
    }

    /// How many nodes are held; the constants don't count.
    pub fn len(&self) -> u64
        ensures len { result ≡ length self.now.nodes }
        ensures table { IsTable self.now }
    {
        self.held.len() as u64
    }

    /// The greatest number of nodes that were held so far.
    pub fn peak(&self) -> u64
        ensures peak { result ≡ self.now.peak }
        ensures table { IsTable self.now }
    {
        self.peak
    }

    /// How many nodes may be held.
    pub fn limit(&self) -> u64
        ensures limit { result ≡ self.now.limit }
        ensures table { IsTable self.now }
    {
        self.limit
    }

    /// The allocator of the space. There is one alone.
    pub fn allocator(&self) -> Global
        ensures only { (alloc : Global) → result ≡ alloc }
        ensures table { IsTable self.now }
    {
        *self.held.allocator()
    }

    /// `Ref::ZERO`, with what is known of it here.
    pub fn zero(&self) -> Ref
        ensures { IsConstant self.now false result }
    {
        let _levels = self.levels;
        Ref::ZERO
    }

    /// `Ref::ONE`, with what is known of it here.
    pub fn one(&self) -> Ref
        ensures { IsConstant self.now true result }
    {
        let _levels = self.levels;
        Ref::ONE
    }

    /// The level of a node, and none of a constant.
    pub fn level(&self, r: Ref) -> Option<u32>
        requires { IsValid self.now r }
        ensures node { result ≡ level_of self.now r }
        ensures constant { IsNone result ↔ (r < 2) }
        ensures none { IfNone result (top_of self.now r ≡ self.now.levels) }
        ensures level { IfSome result (λ l. (2 ≤ r) × (top_of self.now r ≡ l) × (l < self.now.levels)) }
    {
        if r.number() < 2 {
            None
        } else {
            Some(self.node(r).level)
        }
    }

    /// The end of a node for the bit 0.
    pub fn lo(&self, r: Ref) -> Ref
        requires valid { IsValid self.now r }
        requires node { 2 ≤ r }
        ensures node { lo_of self.now r ≡ Some result }
        ensures end { IsEnd self.now r false result }
    {
        self.node(r).lo
    }

    /// The end of a node for the bit 1.
    pub fn hi(&self, r: Ref) -> Ref
        requires valid { IsValid self.now r }
        requires node { 2 ≤ r }
        ensures node { hi_of self.now r ≡ Some result }
        ensures end { IsEnd self.now r true result }
    {
        self.node(r).hi
    }

    /// The diagram that asks the bit at `level` and goes on with `hi` where it is 1, and with `lo` where it
    /// is 0. A node that is there takes no place and no memory. Takes constant time on average.
    pub fn mk(&mut self, level: u32, lo: Ref, hi: Ref) -> Result<Ref, MkFault>
        requires lo { IsValid self.old lo }
        requires hi { IsValid self.old hi }
        requires lo_below { level < top_of self.old lo }
        requires hi_below { level < top_of self.old hi }
        ensures ok { IfOk result (λ r. Makes self.old self.new level lo hi r) }
        ensures grows { Grows self.old self.new }
        ensures levels { self.new.levels ≡ self.old.levels }
        ensures count { length self.new.nodes ≤ length self.old.nodes + 1 }
        ensures full { (result ≡ Err MkFault.Full) ↔ IsRefused self.old (record { level = level; lo = lo; hi = hi }) }
        ensures err { OnErr result (self.new ≡ self.old) }
    {
        if lo.number() == hi.number() {
            return Ok(lo);
        }
        let node = Node { level, lo, hi };
        if let Some(r) = self.find(&node) {
            return Ok(r);
        }
        if self.len() == self.limit() {
            return Err(MkFault::Full);
        }
        self.add(Node { level, lo, hi })
    }

    // The node of a ref that is no constant.
    fn node(&self, r: Ref) -> Node
        requires valid { IsValid self.now r }
        requires node { 2 ≤ r }
        ensures node { node_of self.now.nodes r ≡ Some result }
        ensures table { IsTable self.now }
    {
        match self.held.get_index((r.number() - 2) as usize) {
            Some(node) => *node,
            None => unreachable!(),
        }
    }

    // The ref of this node, where it is held.
    fn find(&self, node: &Node) -> Option<Ref>
        ensures found { IfSome result (λ r. (node_of self.now.nodes r ≡ Some node.now) × (r < number_of_next self.now.nodes)) }
        ensures new { IfNone result (IsNew self.now.nodes node.now) }
    {
        match self.held.get_index_of(node) {
            Some(place) => Some(Ref::numbered(place as u64 + 2)),
            None => None,
        }
    }

    // Holds one node more.
    fn add(&mut self, node: Node) -> Result<Ref, MkFault>
        requires fits { FitsOn self.old.levels self.old.nodes node }
        requires room { length self.old.nodes < self.old.limit }
        ensures ok { IfOk result (λ r. (r ≡ number_of_next self.old.nodes) × (self.new ≡ with_node self.old node)) }
        ensures table { IsTable self.new }
        ensures err { OnErr result ((result ≡ Err MkFault.Memory) × (self.new ≡ self.old)) }
    {
        let number = self.held.len() as u64 + 2;
        match self.held.insert(node) {
            Ok(_) => {
                self.peak = self.peak.max(number - 1);
                Ok(Ref::numbered(number))
            }
            Err(_) => Err(MkFault::Memory),
        }
    }
}
