//! A network that is an automaton has the one output `Acc`, which a table computes from the state alone.

ghost use Rattle.std.specs.Prelude.{◌≡◌, ◌↔◌, ℕ, Some, [], ◌∷◌, codes, Any, Contains, IsTrue, IfOk};
ghost use Rattle.std.specs.Option.{option_map};
ghost use Rattle.name_table.specs.ScopeVars.{variable_at};
ghost use Rattle.net_model.specs.Conditions.{latch_outputs, IsAutomaton, HasAcceptance};
ghost use Rattle.net_model.specs.Nets.{table_of, net_of};
ghost use Rattle.net_model.specs.SoundNets.{HasKnownSignals};
ghost use Rattle.net_conditions.specs.Accepted.{IsAcceptance};
ghost use Rattle.net_conditions.specs.Marks.{IsSetOf};

use crate::latches::size_of;
use crate::signals::{Signals, latch_output_signals};
use name_table::{Names, VarId};
use net_model::{Net, Table};
use std::alloc::{AllocError, Global};

/// The signal `Acc`, where it is the only output.
pub fn accepting_signal(net: &Net) -> Option<VarId>
    ensures { (signal : ℕ) → (option_map (λ v. v.0) result ≡ Some signal) ↔ IsAutomaton (net_of net.now) signal }
{
    match net.outputs.as_slice() {
        [signal] if is_named_acc(&net.names, *signal) => Some(*signal),
        _ => None,
    }
}

fn is_named_acc(names: &Names, signal: VarId) -> bool
    ensures { IsTrue result ↔ ((variable_at names.now signal.0).name ≡ codes "Acc") }
{
    match names.name(signal) {
        Some(name) => name == b"Acc".as_slice(),
        None => false,
    }
}

/// Whether a signal has two values and is the only output of a table with inputs from this set, the latch outputs.
pub fn has_acceptance(net: &Net, states: &Signals, signal: VarId) -> bool
    requires { IsSetOf states.now (Contains (latch_outputs (net_of net.now))) }
    ensures { IsTrue result ↔ HasAcceptance (net_of net.now) signal.0 }
{
    size_of(&net.names, signal) == 2 && is_computed(&net.tables, states, signal)
}

/// Whether some table computes this signal alone, from signals of the set.
fn is_computed(tables: &[Table], states: &Signals, signal: VarId) -> bool
    ensures { IsTrue result ↔ Any (IsAcceptance states.now signal.0) tables.now }
{
    for table in tables {
        if is_acceptance(table, states, signal) {
            return true;
        }
    }
    false
}

/// Whether the table computes this signal alone, from signals of the set.
fn is_acceptance(table: &Table, states: &Signals, signal: VarId) -> bool
    ensures { IsTrue result ↔ IsAcceptance states.now signal.0 table.now }
{
    is_only_output(table, signal) && states.has_all(&table.ins)
}

fn is_only_output(table: &Table, signal: VarId) -> bool
    ensures { IsTrue result ↔ ((table_of table.now).outs ≡ signal.0 ∷ []) }
{
    match table.outs.as_slice() {
        [output] => *output == signal,
        [] => false,
        [_, _, ..] => false,
    }
}

/// Whether the network has acceptance, where it is an automaton.
pub fn is_acceptance_met(alloc: Global, net: &Net) -> Result<bool, AllocError>
    requires { HasKnownSignals (net_of net.now) }
    ensures { IfOk result (λ good. IsTrue good ↔ ((signal : ℕ) → IsAutomaton (net_of net.now) signal → HasAcceptance (net_of net.now) signal)) }
{
    let Some(signal) = accepting_signal(net) else {
        return Ok(true);
    };
    let states = latch_output_signals(alloc, net)?;
    Ok(has_acceptance(net, &states, signal))
}
