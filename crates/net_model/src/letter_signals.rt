//! Which signals of a network its letters give a value.

ghost use Rattle.std.specs.Prelude.{◌≡◌, ◌++◌, ◌∷◌, [], map, filter, not, nat_eq, IfOk, OnOk};
ghost use Rattle.std.specs.List.{list_any};
ghost use Rattle.net_model.specs.NetLanguages.{is_automaton, is_acc, letter_signals};
ghost use Rattle.net_model.specs.Nets.{net_of};

use crate::Net;
use name_table::{Names, VarId};
use std::alloc::{AllocError, Global};

impl Net {
    /// Whether its outputs are exactly `Acc`: then it is an automaton.
    pub fn has_acc(&self) -> bool
        ensures { result ≡ is_automaton (net_of self.now) }
    {
        are_acc(&self.names, &self.outputs)
    }

    /// The signals of its letters: the inputs and, unless it is an automaton, the outputs that are no inputs.
    pub fn letters(&self, alloc: Global) -> Result<Vec<VarId>, AllocError>
        ensures { IfOk result (λ vars. map (λ v. v.0) vars.items ≡ letter_signals (net_of self.now)) }
    {
        let mut vars = self.inputs.to_vec(alloc)?;
        if !self.has_acc() {
            push_others(&mut vars, &self.inputs, &self.outputs)?;
        }
        Ok(vars)
    }
}

// Puts those outputs at the end that are no inputs.
fn push_others(vars: &mut Vec<VarId>, inputs: &[VarId], outputs: &[VarId]) -> Result<(), AllocError>
    ensures { OnOk result (map (λ v. v.0) vars.new.items
        ≡ map (λ v. v.0) vars.old.items ++ filter (λ signal. not (list_any (nat_eq signal) (map (λ v. v.0) inputs.now))) (map (λ v. v.0) outputs.now)) }
{
    for signal in outputs {
        if !is_among(inputs, *signal) {
            vars.push(*signal)?;
        }
    }
    Ok(())
}

// Whether the only one of these signals is `Acc`.
fn are_acc(names: &Names, signals: &[VarId]) -> bool
    ensures { result ≡ is_acc names.now (map (λ v. v.0) signals.now) }
{
    match signals {
        [signal] => is_named_acc(names, *signal),
        [] => false,
        [_, _, ..] => false,
    }
}

/// Whether the name of this signal is `Acc`.
pub(crate) fn is_named_acc(names: &Names, signal: VarId) -> bool
    ensures { result ≡ is_acc names.now (signal.0 ∷ []) }
{
    match names.name(signal) {
        Some(name) => name == b"Acc".as_slice(),
        None => false,
    }
}

fn is_among(signals: &[VarId], signal: VarId) -> bool
    ensures { result ≡ list_any (nat_eq signal.0) (map (λ v. v.0) signals.now) }
{
    for other in signals {
        if signal.0 == other.0 {
            return true;
        }
    }
    false
}
