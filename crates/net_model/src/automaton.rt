//! Whether a network is an automaton as the format wants it.

ghost use Rattle.std.specs.Prelude.{◌≡◌, ◌↔◌, length, map, nat_eq, IsTrue};
ghost use Rattle.std.specs.List.{list_any, list_all};
ghost use Rattle.net_model.specs.Accepted.{is_only, computes};
ghost use Rattle.net_model.specs.Conditions.{latch_outputs, HasAcceptance, IsAuto};
ghost use Rattle.net_model.specs.Nets.{latch_of, table_of, net_of};
ghost use Rattle.net_model.specs.Spellings.{domain_at};

use crate::letter_signals::is_named_acc;
use crate::{Latch, Net, Table};
use name_table::{Names, VarId};

impl Net {
    /// Whether its only output is `Acc`, with two values, and a table computes it alone from latch outputs alone. Each
    /// input of a table with this output is looked for among all latches.
    pub fn is_auto(&self) -> bool
        ensures { IsTrue result ↔ IsAuto (net_of self.now) }
    {
        match self.outputs.as_slice() {
            [signal] => is_named_acc(&self.names, *signal) && has_acceptance(self, *signal),
            [] => false,
            [_, _, ..] => false,
        }
    }
}

// Whether the signal has two values, and a table computes it alone from latch outputs alone.
fn has_acceptance(net: &Net, signal: VarId) -> bool
    ensures { IsTrue result ↔ HasAcceptance (net_of net.now) signal.0 }
{
    is_binary(&net.names, signal) && is_computed(net, signal)
}

fn is_binary(names: &Names, signal: VarId) -> bool
    ensures { IsTrue result ↔ (length (domain_at names.now signal.0) ≡ 2) }
{
    match names.domain(signal) {
        Some(domain) => domain.len() == 2,
        None => false,
    }
}

// Whether some table computes the signal.
fn is_computed(net: &Net, signal: VarId) -> bool
    ensures { result ≡ list_any (computes (latch_outputs (net_of net.now)) signal.0) (net_of net.now).tables }
{
    for table in &net.tables {
        if is_computed_by(table, &net.latches, signal) {
            return true;
        }
    }
    false
}

// Whether the table sets the signal alone, and reads latch outputs alone.
fn is_computed_by(table: &Table, latches: &[Latch], signal: VarId) -> bool
    ensures { result ≡ computes (map (λ latch. latch.output) (map latch_of latches.now)) signal.0 (table_of table.now) }
{
    is_only_signal(&table.outs, signal) && are_latch_outputs(&table.ins, latches)
}

fn is_only_signal(signals: &[VarId], signal: VarId) -> bool
    ensures { result ≡ is_only (map (λ v. v.0) signals.now) signal.0 }
{
    match signals {
        [only] => only.0 == signal.0,
        [] => false,
        [_, _, ..] => false,
    }
}

fn are_latch_outputs(signals: &[VarId], latches: &[Latch]) -> bool
    ensures { result ≡ list_all (λ signal. list_any (nat_eq signal) (map (λ latch. latch.output) (map latch_of latches.now))) (map (λ v. v.0) signals.now) }
{
    for signal in signals {
        if !is_latch_output(*signal, latches) {
            return false;
        }
    }
    true
}

fn is_latch_output(signal: VarId, latches: &[Latch]) -> bool
    ensures { result ≡ list_any (nat_eq signal.0) (map (λ latch. latch.output) (map latch_of latches.now)) }
{
    for latch in latches {
        if signal.0 == latch.output.0 {
            return true;
        }
    }
    false
}
