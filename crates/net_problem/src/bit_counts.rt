//! How many bits a file's signals and states have beside those of the letters, and which signals are letters or states.

ghost use Rattle.std.specs.Prelude.{◌≡◌, ◌<◌, ◌≤◌, length, map, nat_eq};
ghost use Rattle.std.specs.List.{list_any};
ghost use Rattle.name_table.specs.CodeBits.{bits_of, bits_in};
ghost use Rattle.name_table.specs.ScopeVars.{variable_at};
ghost use Rattle.net_model.specs.Conditions.{latch_outputs};
ghost use Rattle.net_model.specs.NetLanguages.{letter_signals};
ghost use Rattle.net_model.specs.Nets.{net_of};
ghost use Rattle.net_model.specs.Problems.{file_of};
ghost use Rattle.net_problem.specs.ProblemBits.{own_of, own_scope, file_bits};

use name_table::{Names, Scope, VarId, code_bits};
use net_model::{File, Net};

/// How many bits a letter over the scope has.
pub(crate) fn bits_of_letter(scope: &Scope) -> u64
    ensures bits { result ≡ bits_in scope.now }
    ensures few { result ≤ 524288 }
{
    let mut bits = 0;
    for var in 0..scope.len() {
        bits += u64::from(bits_of_variable(scope, var));
    }
    bits
}

/// How many bits a variable of the scope has.
pub fn bits_of_variable(scope: &Scope, var: u32) -> u32
    requires { var < length scope.now }
    ensures bits { result ≡ bits_of (variable_at scope.now var) }
    ensures few { result ≤ 32 }
{
    code_bits(scope.domain(var).unwrap().len() as usize)
}

/// How many bits a file has for itself: twice those of each latch or of a machine's state, and those of each other signal
/// that is no letter.
pub fn bits_of_file(file: &File) -> u64
    ensures bits { result ≡ file_bits (file_of file.now) }
    ensures few { result ≤ 262144 }
{
    match file {
        File::Net(net) => own_bits(net),
        File::Machine(machine) => 2 * u64::from(code_bits(machine.states as usize)),
    }
}

fn own_bits(net: &Net) -> u64
    ensures bits { result ≡ bits_in (own_scope (net_of net.now)) }
    ensures few { result ≤ 262144 }
{
    let mut bits = 0;
    for signal in 0..net.names.len() {
        bits += u64::from(own_bits_of(net, VarId(signal)));
    }
    bits
}

/// How many bits a file has for a signal, beside those of the letters.
pub fn own_bits_of(net: &Net, signal: VarId) -> u32
    requires { signal.0 < length (net_of net.now).names }
    ensures bits { result ≡ bits_in (own_of (net_of net.now) signal.0) }
    ensures few { result ≤ 64 }
{
    let bits = bits_of_signal(&net.names, signal);
    if is_latch_output(net, signal) {
        2 * bits
    } else if is_letter(net, signal) {
        0
    } else {
        bits
    }
}

/// How many bits a signal has.
pub fn bits_of_signal(names: &Names, signal: VarId) -> u32
    requires { signal.0 < length names.now }
    ensures bits { result ≡ bits_of (variable_at names.now signal.0) }
    ensures few { result ≤ 32 }
{
    code_bits(names.domain(signal).unwrap().len() as usize)
}

/// Whether the signal is the output of a latch.
pub fn is_latch_output(net: &Net, signal: VarId) -> bool
    ensures { result ≡ list_any (nat_eq signal.0) (latch_outputs (net_of net.now)) }
{
    for latch in &net.latches {
        if signal.0 == latch.output.0 {
            return true;
        }
    }
    false
}

/// Whether the signal is one of those that a letter gives a value.
pub fn is_letter(net: &Net, signal: VarId) -> bool
    ensures { result ≡ list_any (nat_eq signal.0) (letter_signals (net_of net.now)) }
{
    if is_among(&net.inputs, signal) {
        true
    } else if net.has_acc() {
        false
    } else {
        is_among(&net.outputs, signal)
    }
}

fn is_among(signals: &[VarId], signal: VarId) -> bool
    ensures { result ≡ list_any (nat_eq signal.0) (map (λ v. v.0) signals.now) }
{
    for other in signals {
        if signal.0 == other.0 {
            return true;
        }
    }
    false
}
