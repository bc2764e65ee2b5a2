//! The codes of the values of latches, and the map from the next ones to the present ones.

ghost use Rattle.std.specs.Prelude.{◌≡◌, ◌<◌, ◌≤◌, ◌+◌, ◌++◌, [], true, length, map, nat_eq, if◌then◌else◌, IfOk, OnOk};
ghost use Rattle.std.specs.List.{list_any, flat_map, range_with_len};
ghost use Rattle.name_table.specs.CodeBits.{bits_in};
ghost use Rattle.name_table.specs.ScopeVars.{variable_at};
ghost use Rattle.net_model.specs.Conditions.{latch_outputs};
ghost use Rattle.net_model.specs.Nets.{net_of};
ghost use Rattle.net_model.specs.Outlines.{IsWired};
ghost use Rattle.net_problem.specs.ProblemBits.{own_scope};
ghost use Rattle.net_frame.specs.Frames.{own_spot, next_spot, back_at, back_from};
ghost use Rattle.net_frame.specs.Making.{all_before};

use crate::codes::code_of_signal;
use mv_encoding::Coding;
use name_table::VarId;
use net_model::Net;
use net_problem::{bits_of_signal, is_latch_output};
use std::alloc::{AllocError, Global};

/// The codes of the present values, in the order of the latches.
pub(crate) fn codes_of_present(
    alloc: Global,
    start: u32,
    net: &Net,
    before: &[u32],
) -> Result<Vec<Coding>, AllocError>
    requires sound { IsWired (net_of net.now) }
    requires before { before.now ≡ all_before (net_of net.now) }
    requires room { start + bits_in (own_scope (net_of net.now)) ≤ 8192 }
    ensures { IfOk result (λ codes. codes.items ≡ map (own_spot (net_of net.now) start) (latch_outputs (net_of net.now))) }
{
    let mut codes = Vec::new(alloc);
    for latch in &net.latches {
        codes.push(present_code(alloc, start, net, before, latch.output)?)?;
    }
    Ok(codes)
}

fn present_code(
    alloc: Global,
    start: u32,
    net: &Net,
    before: &[u32],
    output: VarId,
) -> Result<Coding, AllocError>
    requires output { output.0 < length (net_of net.now).names }
    requires before { before.now ≡ all_before (net_of net.now) }
    requires room { start + bits_in (own_scope (net_of net.now)) ≤ 8192 }
    ensures { IfOk result (λ code. code ≡ own_spot (net_of net.now) start output.0) }
{
    let level = start + before[output.0 as usize];
    code_of_signal(alloc, &net.names, output, level)
}

/// The codes of the next values, each right behind the present one.
pub(crate) fn codes_of_next(
    alloc: Global,
    start: u32,
    net: &Net,
    before: &[u32],
) -> Result<Vec<Coding>, AllocError>
    requires sound { IsWired (net_of net.now) }
    requires before { before.now ≡ all_before (net_of net.now) }
    requires room { start + bits_in (own_scope (net_of net.now)) ≤ 8192 }
    ensures { IfOk result (λ codes. codes.items ≡ map (next_spot (net_of net.now) start) (latch_outputs (net_of net.now))) }
{
    let mut codes = Vec::new(alloc);
    for latch in &net.latches {
        codes.push(next_code(alloc, start, net, before, latch.output)?)?;
    }
    Ok(codes)
}

fn next_code(
    alloc: Global,
    start: u32,
    net: &Net,
    before: &[u32],
    output: VarId,
) -> Result<Coding, AllocError>
    requires output { output.0 < length (net_of net.now).names }
    requires latch { list_any (nat_eq output.0) (latch_outputs (net_of net.now)) ≡ true }
    requires before { before.now ≡ all_before (net_of net.now) }
    requires room { start + bits_in (own_scope (net_of net.now)) ≤ 8192 }
    ensures { IfOk result (λ code. code ≡ next_spot (net_of net.now) start output.0) }
{
    let level = start + before[output.0 as usize];
    let bits = bits_of_signal(&net.names, output);
    code_of_signal(alloc, &net.names, output, level + bits)
}

/// The pairs of levels that take the next values to the present ones.
pub(crate) fn pairs_of_latches(
    alloc: Global,
    start: u32,
    net: &Net,
    before: &[u32],
) -> Result<Vec<(u32, u32)>, AllocError>
    requires before { before.now ≡ all_before (net_of net.now) }
    requires room { start + bits_in (own_scope (net_of net.now)) ≤ 8192 }
    ensures pairs { IfOk result (λ pairs. pairs.items ≡ flat_map (back_from (net_of net.now) start) (range_with_len 0 (length (net_of net.now).names))) }
    ensures few { IfOk result (λ pairs. length pairs.items ≤ 131072) }
{
    let mut pairs = Vec::new(alloc);
    for signal in 0..net.names.len() {
        let level = start + before[signal as usize];
        push_pairs(&mut pairs, net, VarId(signal), level)?;
    }
    Ok(pairs)
}

// Puts the pairs of a latch at the end, whose present value stands from this level on; other signals have none.
fn push_pairs(
    pairs: &mut Vec<(u32, u32)>,
    net: &Net,
    output: VarId,
    level: u32,
) -> Result<(), AllocError>
    requires output { output.0 < length (net_of net.now).names }
    requires low { level ≤ 8192 }
    ensures pairs { OnOk result (pairs.new.items ≡ pairs.old.items ++ (if list_any (nat_eq output.0) (latch_outputs (net_of net.now)) then back_at (variable_at (net_of net.now).names output.0) level else [])) }
    ensures few { OnOk result (length pairs.new.items ≤ length pairs.old.items + 32) }
{
    if !is_latch_output(net, output) {
        return Ok(());
    }
    let bits = bits_of_signal(&net.names, output);
    push_shifted(pairs, level, bits)
}

// Puts the pairs at the end that take levels to those that stand by as many above.
fn push_shifted(pairs: &mut Vec<(u32, u32)>, level: u32, bits: u32) -> Result<(), AllocError>
    requires low { level ≤ 8192 }
    requires few { bits ≤ 32 }
    ensures pairs { OnOk result (pairs.new.items ≡ pairs.old.items ++ map (λ k. (level + bits + k, level + k)) (range_with_len 0 bits)) }
    ensures few { OnOk result (length pairs.new.items ≡ length pairs.old.items + bits) }
{
    for k in 0..bits {
        pairs.push((level + bits + k, level + k))?;
    }
    Ok(())
}
