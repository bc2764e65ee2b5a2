//! Sets of signals of a network.

ghost use Rattle.std.specs.Prelude.{◌≡◌, ◌≤◌, ◌<◌, ◌↔◌, ℕ, not, false, true, length, map, nat_eq, count_by, replicate, slice_set, All, Contains, IsTrue, IfOk};
ghost use Rattle.std.specs.List.{list_all, list_any};
ghost use Rattle.net_model.specs.Conditions.{times_driven, latch_outputs};
ghost use Rattle.net_model.specs.Nets.{net_of};
ghost use Rattle.net_model.specs.SoundNets.{HasKnownSignals};
ghost use Rattle.net_conditions.specs.Marks.{is_marked, IsSetOf, Adds, GrowsIf};

use crate::signal_lists;
use name_table::VarId;
use net_model::Net;
use std::alloc::{AllocError, Global};
use std::marker::Model;

/// A set of signals, as a mark for each signal of the network.
#[derive(Drop)]
pub struct Signals {
    marks: Vec<bool>,
}

impl Model for Signals {
    ghost use Rattle.std.specs.Prelude.{Bool, List};

    ghost Value = { List Bool };

    ghost view = { λ s. s.marks.items };
}

impl Signals {
    /// None of so many signals.
    pub fn none(alloc: Global, count: u32) -> Result<Signals, AllocError>
        ensures { IfOk result (λ set. set ≡ replicate count false) }
    {
        let marks = vec![in alloc; false; count as usize]?;
        Ok(Signals { marks })
    }

    /// These signals, of so many.
    pub fn of(alloc: Global, count: u32, signals: &[VarId]) -> Result<Signals, AllocError>
        requires { All (λ v. v < count) (map (λ v. v.0) signals.now) }
        ensures { IfOk result (Adds (replicate count false) (map (λ v. v.0) signals.now)) }
    {
        let mut set = Signals::none(alloc, count)?;
        set.insert_all(signals);
        Ok(set)
    }

    /// Whether the set has a signal.
    pub fn has(&self, signal: VarId) -> bool
        ensures { result ≡ is_marked self.now signal.0 }
    {
        let place = signal.0 as usize;
        place < self.marks.len() && self.marks[place]
    }

    /// Whether the set has each of these signals.
    pub fn has_all(&self, signals: &[VarId]) -> bool
        ensures { result ≡ list_all (λ v. is_marked self.now v.0) signals.now }
    {
        signals.iter().all(|signal| self.has(*signal))
    }

    /// Whether the set has one of these signals.
    pub fn has_any(&self, signals: &[VarId]) -> bool
        ensures { result ≡ list_any (λ v. is_marked self.now v.0) signals.now }
    {
        signals.iter().any(|signal| self.has(*signal))
    }

    /// Adds a signal, and says whether it is new.
    pub fn insert(&mut self, signal: VarId) -> bool
        requires { signal.0 < length self.old }
        ensures added { self.new ≡ slice_set self.old signal.0 true }
        ensures is_new { result ≡ not (is_marked self.old signal.0) }
    {
        let place = signal.0 as usize;
        let is_new = !self.marks[place];
        self.marks[place] = true;
        is_new
    }

    /// Adds signals, and says whether one of them is new.
    pub fn insert_all(&mut self, signals: &[VarId]) -> bool
        requires { All (λ v. v < length self.old) (map (λ v. v.0) signals.now) }
        ensures added { Adds self.old (map (λ v. v.0) signals.now) self.new }
        ensures grown { GrowsIf result self.old self.new }
    {
        let mut grown = false;
        for signal in signals {
            if self.insert(*signal) {
                grown = true;
            }
        }
        grown
    }
}

/// Whether no signal, of so many, stands in the list twice.
pub fn are_distinct(alloc: Global, count: u32, signals: &[VarId]) -> Result<bool, AllocError>
    requires { All (λ v. v < count) (map (λ v. v.0) signals.now) }
    ensures { IfOk result (λ distinct. IsTrue distinct ↔ ((signal : ℕ) → count_by (nat_eq signal) (map (λ v. v.0) signals.now) ≤ 1)) }
{
    let mut met = Signals::none(alloc, count)?;
    for signal in signals {
        if !met.insert(*signal) {
            return Ok(false);
        }
    }
    Ok(true)
}

/// The signals that are driven.
pub fn driven_signals(alloc: Global, net: &Net) -> Result<Signals, AllocError>
    requires { HasKnownSignals (net_of net.now) }
    ensures { IfOk result (λ set. IsSetOf set (λ signal. 0 < times_driven (net_of net.now) signal)) }
{
    let drives = signal_lists::drives(alloc, net)?;
    Signals::of(alloc, net.names.len(), &drives)
}

/// The outputs of the latches.
pub fn latch_output_signals(alloc: Global, net: &Net) -> Result<Signals, AllocError>
    requires { HasKnownSignals (net_of net.now) }
    ensures { IfOk result (λ set. IsSetOf set (Contains (latch_outputs (net_of net.now)))) }
{
    let outputs = signal_lists::latch_outputs(alloc, net)?;
    Signals::of(alloc, net.names.len(), &outputs)
}
