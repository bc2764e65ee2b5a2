//! The rows of a table of steps, appended to the text that is being built.

ghost use Rattle.std.specs.Prelude.{◌≡◌, ◌+◌, ◌-◌, ◌<◌, ◌≤◌, ◌^◌, [], ◌∷◌, ◌++◌, length, take, drop, map, codes, All, OnOk, IfOk};
ghost use Rattle.std.specs.List.{flat_map, join_with_byte};
ghost use Rattle.name_table.specs.CodeBits.{code_bits};
ghost use Rattle.net_model.specs.Printed.{
  value_name,
  values_field,
  entry_field,
  entry_fields,
  row_line,
  line_bytes,
};
ghost use Rattle.node_table.specs.Table.{IsValid};
ghost use Rattle.bdd_walk.specs.Paths.{path_of};
ghost use Rattle.det_core.specs.Automata.{AreGuardsValid};
ghost use Rattle.aut_format.specs.Fields.{blank_after, comma_before};
ghost use Rattle.aut_format.specs.Rows.{
  allows_bit,
  numbers_along,
  values_below,
  entry_along,
  entries_along,
  row_along,
  rows_of_move,
  rows_of_moves,
  rows_from,
  RisesFrom,
  count_before,
};

use crate::fields::push_state;
use bdd_walk::{Lit, Paths};
use det_core::{Det, Move};
use mv_encoding::Coding;
use name_table::{Domain, code_bits};
use node_table::Space;
use std::alloc::{AllocError, Global};

/// The rows of the automaton.
pub fn push_rows(
    text: &mut Vec<u8>,
    det: &Det,
    space: &Space,
    coding: &Coding,
) -> Result<(), AllocError>
    requires { All (λ s. AreGuardsValid space.now s.moves) det.now }
    ensures { OnOk result (text.new.items
        ≡ text.old.items ++ flat_map line_bytes (map (row_line coding.now.scope) (rows_from space.now coding.now 0 det.now))) }
{
    for state in 0..det.states() {
        push_moves(text, det.moves(state), space, coding, state)?;
    }
    Ok(())
}

// The rows of the moves of a state.
fn push_moves(
    text: &mut Vec<u8>,
    moves: &[Move],
    space: &Space,
    coding: &Coding,
    present: u64,
) -> Result<(), AllocError>
    requires { AreGuardsValid space.now moves.now }
    ensures { OnOk result (text.new.items
        ≡ text.old.items ++ flat_map line_bytes (map (row_line coding.now.scope) (rows_of_moves space.now coding.now present moves.now))) }
{
    for m in moves {
        push_move(text, m, space, coding, present)?;
    }
    Ok(())
}

// A row for each path of the guard.
fn push_move(
    text: &mut Vec<u8>,
    m: &Move,
    space: &Space,
    coding: &Coding,
    present: u64,
) -> Result<(), AllocError>
    requires { IsValid space.now m.now.guard }
    ensures { OnOk result (text.new.items
        ≡ text.old.items ++ flat_map line_bytes (map (row_line coding.now.scope) (rows_of_move space.now coding.now present m.now))) }
{
    let mut paths = Paths::over(space.allocator(), space, m.guard)?;
    while let Some(path) = paths.next_path() {
        push_row(text, path, coding, present, m.target)?;
    }
    Ok(())
}

// The row of a path.
fn push_row(
    text: &mut Vec<u8>,
    path: &[Lit],
    coding: &Coding,
    present: u64,
    next: u64,
) -> Result<(), AllocError>
    requires { RisesFrom 0 (path_of path.now) }
    ensures { OnOk result (text.new.items
        ≡ text.old.items ++ line_bytes (row_line coding.now.scope (row_along coding.now present next (path_of path.now)))) }
{
    push_entries(text, path, coding)?;
    push_state(text, present as usize)?;
    text.push(b' ')?;
    push_state(text, next as usize)?;
    text.push(b'\n')?;
    Ok(())
}

// The entry of each variable, a blank after each.
fn push_entries(text: &mut Vec<u8>, path: &[Lit], coding: &Coding) -> Result<(), AllocError>
    requires { RisesFrom 0 (path_of path.now) }
    ensures { OnOk result (text.new.items
        ≡ text.old.items ++ blank_after (entry_fields coding.now.scope (entries_along (path_of path.now) coding.now.first coding.now.scope))) }
{
    // A letter has few bits.
    let _bits = coding.bits();
    let scope = coding.scope();
    let mut level = u64::from(coding.first());
    let mut left = behind(path, level);
    for var in 0..scope.len() {
        let domain = scope.domain(var).unwrap();
        let end = level + u64::from(code_bits(domain.len() as usize));
        push_entry(text, before(left, end), level, domain)?;
        text.push(b' ')?;
        left = behind(left, end);
        level = end;
    }
    Ok(())
}

// The literals before this level.
fn before(path: &[Lit], level: u64) -> &[Lit]
    ensures { result.now ≡ take (count_before (path_of path.now) level) path.now }
{
    &path[..count(path, level)]
}

// The literals from this level on.
fn behind(path: &[Lit], level: u64) -> &[Lit]
    ensures { result.now ≡ drop (count_before (path_of path.now) level) path.now }
{
    &path[count(path, level)..]
}

// How many literals stand before the first one from this level on.
fn count(path: &[Lit], level: u64) -> usize
    ensures count { result ≡ count_before (path_of path.now) level }
    ensures within { result ≤ length path.now }
{
    for (place, lit) in path.iter().enumerate() {
        if u64::from(lit.level) >= level {
            return place;
        }
    }
    path.len()
}

// A dash where the path leaves every value, else the values that it leaves.
fn push_entry(
    text: &mut Vec<u8>,
    path: &[Lit],
    level: u64,
    domain: &Domain,
) -> Result<(), AllocError>
    requires { level < 2 ^ 63 }
    ensures { OnOk result (text.new.items
        ≡ text.old.items ++ entry_field (record { name = []; values = domain.now }) (entry_along (path_of path.now) level (record { name = []; values = domain.now }))) }
{
    if path.is_empty() {
        text.push(b'-')?;
        return Ok(());
    }
    let values = values_along(*text.allocator(), path, level, domain.len())?;
    if values.len() == domain.len() as usize {
        text.push(b'-')?;
        return Ok(());
    }
    push_value_names(text, domain, &values)
}

// The values that the path leaves of so many, whose codes stand from this level on.
fn values_along(alloc: Global, path: &[Lit], level: u64, count: u32) -> Result<Vec<u32>, AllocError>
    requires level { level < 2 ^ 63 }
    requires few { count ≤ 131072 }
    ensures { IfOk result (λ values. values.items ≡ values_below count (numbers_along (path_of path.now) level (code_bits count) 0)) }
{
    let mut values = Vec::new(alloc);
    let bits = code_bits(count as usize);
    push_numbers(&mut values, path, level, bits, 0, count)?;
    Ok(values)
}

// The values among the numbers that so many bits spell along the path, each added to `base`.
fn push_numbers(
    values: &mut Vec<u32>,
    path: &[Lit],
    level: u64,
    bits: u32,
    base: u32,
    count: u32,
) -> Result<(), AllocError>
    requires level { level + bits < 2 ^ 64 }
    requires few { bits ≤ 32 }
    requires fits { base + 2 ^ bits ≤ 2 ^ 32 }
    ensures { OnOk result (values.new.items ≡ values.old.items ++ values_below count (numbers_along (path_of path.now) level bits base)) }
{
    if bits == 0 {
        return push_below(values, base, count);
    }
    let rest = bits - 1;
    let raised = base + weight(bits);
    match (
        allows_bit(path, level, false),
        allows_bit(path, level, true),
    ) {
        (true, true) => {
            push_numbers(values, path, level + 1, rest, base, count)?;
            push_numbers(values, path, level + 1, rest, raised, count)
        }
        (true, false) => push_numbers(values, path, level + 1, rest, base, count),
        (false, true) => push_numbers(values, path, level + 1, rest, raised, count),
        (false, false) => Ok(()),
    }
}

// The weight of the first of so many bits.
fn weight(bits: u32) -> u32
    requires some { 0 < bits }
    requires few { bits ≤ 32 }
    ensures { result ≡ 2 ^ (bits - 1) }
{
    1 << (bits - 1)
}

// The number, if it is a value.
fn push_below(values: &mut Vec<u32>, number: u32, count: u32) -> Result<(), AllocError>
    ensures { OnOk result (values.new.items ≡ values.old.items ++ values_below count (number ∷ [])) }
{
    if number >= count {
        return Ok(());
    }
    values.push(number)?;
    Ok(())
}

// Whether the path doesn't ask for the other bit at this level.
fn allows_bit(path: &[Lit], level: u64, bit: bool) -> bool
    ensures { result ≡ allows_bit (path_of path.now) level bit }
{
    for lit in path {
        if u64::from(lit.level) == level && lit.value != bit {
            return false;
        }
    }
    true
}

// The name of the one value, or those of several values as a list.
fn push_value_names(text: &mut Vec<u8>, domain: &Domain, values: &[u32]) -> Result<(), AllocError>
    ensures { OnOk result (text.new.items
        ≡ text.old.items ++ values_field (record { name = []; values = domain.now }) values.now) }
{
    match values {
        [] => Ok(()),
        [value] => push_value(text, domain, *value),
        [value, more @ ..] => push_value_list(text, domain, *value, more),
    }
}

// A list of values in parentheses, with commas between them.
fn push_value_list(
    text: &mut Vec<u8>,
    domain: &Domain,
    first: u32,
    more: &[u32],
) -> Result<(), AllocError>
    ensures { OnOk result (text.new.items
        ≡ text.old.items ++ (codes "(" ++ (join_with_byte 44 (map (value_name (record { name = []; values = domain.now })) (first ∷ more.now)) ++ codes ")"))) }
{
    text.push(b'(')?;
    push_value(text, domain, first)?;
    push_more_values(text, domain, more)?;
    text.push(b')')?;
    Ok(())
}

// The names of values, each behind a comma.
fn push_more_values(text: &mut Vec<u8>, domain: &Domain, values: &[u32]) -> Result<(), AllocError>
    ensures { OnOk result (text.new.items
        ≡ text.old.items ++ comma_before (map (value_name (record { name = []; values = domain.now })) values.now)) }
{
    for value in values {
        text.push(b',')?;
        push_value(text, domain, *value)?;
    }
    Ok(())
}

// The name of a value; that of no value is empty.
fn push_value(text: &mut Vec<u8>, domain: &Domain, value: u32) -> Result<(), AllocError>
    ensures { OnOk result (text.new.items
        ≡ text.old.items ++ value_name (record { name = []; values = domain.now }) value) }
{
    match domain.name(value) {
        Some(name) => text.extend_from_slice(name.as_slice()),
        None => Ok(()),
    }
}
