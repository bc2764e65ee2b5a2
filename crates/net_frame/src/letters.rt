//! The codes of a file's letters and signals.

ghost use Rattle.std.specs.Prelude.{◌≡◌, ◌<◌, ◌≤◌, ◌+◌, true, length, map, nat_eq, if◌then◌else◌, IfOk};
ghost use Rattle.std.specs.List.{list_any, range_with_len};
ghost use Rattle.std.specs.Str.{bytes_eq};
ghost use Rattle.name_table.specs.CodeBits.{bits_in};
ghost use Rattle.name_table.specs.ScopeVars.{variable_at};
ghost use Rattle.net_model.specs.Nets.{net_of};
ghost use Rattle.net_model.specs.NetLanguages.{letter_signals};
ghost use Rattle.net_model.specs.Outlines.{IsWired};
ghost use Rattle.mv_encoding.specs.Spots.{IsSpot, spot_of};
ghost use Rattle.net_problem.specs.ProblemBits.{own_scope};
ghost use Rattle.net_frame.specs.Frames.{letter_spot, signal_spot, spot_named};
ghost use Rattle.net_frame.specs.Making.{all_before, has_letter, has_spot, HasLetters, AreJointCodes};

use crate::codes::{code_of_signal, copied};
use mv_encoding::Coding;
use name_table::{Names, VarId};
use net_model::{Mode, Net};
use net_problem::{is_letter, own_bits_of};
use std::alloc::{AllocError, Global};

/// For each signal, how many bits the file has for itself before it.
pub(crate) fn bits_before_each(alloc: Global, net: &Net) -> Result<Vec<u32>, AllocError>
    ensures { IfOk result (λ before. before.items ≡ all_before (net_of net.now)) }
{
    let mut before = Vec::new(alloc);
    let mut bits = 0;
    for signal in 0..net.names.len() {
        before.push(bits)?;
        bits += own_bits_of(net, VarId(signal));
    }
    Ok(before)
}

/// The codes of the letters, in their order.
pub(crate) fn codes_of_letters(
    alloc: Global,
    mode: Mode,
    joint: &[Coding],
    net: &Net,
) -> Result<Vec<Coding>, AllocError>
    requires sound { IsWired (net_of net.now) }
    requires joint { AreJointCodes joint.now }
    requires there { HasLetters mode joint.now (net_of net.now) }
    ensures { IfOk result (λ codes. codes.items ≡ map (λ signal. letter_spot mode joint.now (variable_at (net_of net.now).names signal).name) (letter_signals (net_of net.now))) }
{
    let letters = net.letters(alloc)?;
    let mut codes = Vec::new(alloc);
    for letter in &letters {
        codes.push(letter_code(alloc, mode, joint, net, *letter)?)?;
    }
    Ok(codes)
}

/// The codes of all signals, in the order of the names.
pub(crate) fn codes_of_signals(
    alloc: Global,
    mode: Mode,
    joint: &[Coding],
    start: u32,
    net: &Net,
    before: &[u32],
) -> Result<Vec<Coding>, AllocError>
    requires joint { AreJointCodes joint.now }
    requires there { HasLetters mode joint.now (net_of net.now) }
    requires before { before.now ≡ all_before (net_of net.now) }
    requires room { start + bits_in (own_scope (net_of net.now)) ≤ 8192 }
    ensures { IfOk result (λ codes. codes.items ≡ map (signal_spot mode joint.now (net_of net.now) start) (range_with_len 0 (length (net_of net.now).names))) }
{
    let mut codes = Vec::new(alloc);
    for signal in 0..net.names.len() {
        let level = start + before[signal as usize];
        codes.push(code_of(alloc, mode, joint, net, VarId(signal), level)?)?;
    }
    Ok(codes)
}

// The code of a signal: that of the letter, or its own from this level on.
fn code_of(
    alloc: Global,
    mode: Mode,
    joint: &[Coding],
    net: &Net,
    signal: VarId,
    level: u32,
) -> Result<Coding, AllocError>
    requires signal { signal.0 < length (net_of net.now).names }
    requires joint { AreJointCodes joint.now }
    requires there { list_any (nat_eq signal.0) (letter_signals (net_of net.now)) ≡ true → has_letter mode joint.now (variable_at (net_of net.now).names signal.0).name ≡ true }
    requires low { level ≤ 8192 }
    ensures { IfOk result (λ code. code ≡ (if list_any (nat_eq signal.0) (letter_signals (net_of net.now)) then letter_spot mode joint.now (variable_at (net_of net.now).names signal.0).name else spot_of (variable_at (net_of net.now).names signal.0) level)) }
{
    if is_letter(net, signal) {
        letter_code(alloc, mode, joint, net, signal)
    } else {
        code_of_signal(alloc, &net.names, signal, level)
    }
}

// The code of a signal that is a letter.
fn letter_code(
    alloc: Global,
    mode: Mode,
    joint: &[Coding],
    net: &Net,
    letter: VarId,
) -> Result<Coding, AllocError>
    requires letter { letter.0 < length (net_of net.now).names }
    requires joint { AreJointCodes joint.now }
    requires there { has_letter mode joint.now (variable_at (net_of net.now).names letter.0).name ≡ true }
    ensures { IfOk result (λ code. code ≡ letter_spot mode joint.now (variable_at (net_of net.now).names letter.0).name) }
{
    code_named(alloc, mode, joint, name_of_signal(&net.names, letter))
}

fn name_of_signal(names: &Names, signal: VarId) -> &[u8]
    requires { signal.0 < length names.now }
    ensures { result.now ≡ (variable_at names.now signal.0).name }
{
    names.name(signal).unwrap()
}

// The code of the letter of this name; in parallel mode there is one joint variable.
fn code_named(
    alloc: Global,
    mode: Mode,
    joint: &[Coding],
    name: &[u8],
) -> Result<Coding, AllocError>
    requires joint { AreJointCodes joint.now }
    requires there { has_letter mode joint.now name.now ≡ true }
    ensures { IfOk result (λ code. code ≡ letter_spot mode joint.now name.now) }
{
    match mode {
        Mode::Sync => joint_code_named(alloc, joint, name),
        Mode::Parallel => copied(alloc, &joint[0]),
    }
}

// The code of the variable of this name.
fn joint_code_named(alloc: Global, joint: &[Coding], name: &[u8]) -> Result<Coding, AllocError>
    requires joint { AreJointCodes joint.now }
    requires there { has_spot joint.now name.now ≡ true }
    ensures { IfOk result (λ code. code ≡ spot_named joint.now name.now) }
{
    for code in joint {
        if has_name(code, name) {
            return copied(alloc, code);
        }
    }
    unreachable!()
}

// Whether the only variable of the code has this name.
fn has_name(code: &Coding, name: &[u8]) -> bool
    requires { IsSpot code.now }
    ensures { result ≡ bytes_eq (variable_at code.now.scope 0).name name.now }
{
    code.scope().name(0).unwrap() == name
}
