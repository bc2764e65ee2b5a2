//! The second pass over the text of a machine: its rows, by the states of the whole text.

ghost use Rattle.std.specs.Prelude.{◌≡◌, ◌≤◌, ◌++◌, length, map, None, IfOk, OnOk};
ghost use Rattle.std.specs.List.{flat_map};
ghost use Rattle.lex_core.specs.LogicalLines.{logical_lines};
ghost use Rattle.net_model.specs.Faults.{Finds, fault_or};
ghost use Rattle.net_model.specs.KissTexts.{kiss_text_in, kiss_rows_on, bit_of};
ghost use Rattle.net_model.specs.Machines.{kiss_row_of};
ghost use Rattle.kiss_reader.specs.Said.{form_said};
ghost use Rattle.kiss_reader.specs.SecondPass.{kind_of_form, resets_unknown_at, rows_fault};

use crate::buffer::fill;
use crate::form::{Form, form_of, is_row};
use crate::states::{has_state, state_said};
use lex_core::Lines;
use name_table::NameSet;
use net_model::{Bit, KissRow, TextFault, TextKind};
use std::alloc::{AllocError, Global};

/// The rows of a text that has these states, and in which two columns have one name or none. Or the first fault that a
/// line has by the whole text.
pub(crate) fn read_rows(
    alloc: Global,
    bytes: &[u8],
    states: &NameSet,
    repeats: bool,
) -> Result<Vec<KissRow>, TextFault>
    requires { length states.now ≤ 65536 }
    ensures fault { Finds result (rows_fault repeats states.now 0 (logical_lines bytes.now)) }
    ensures rows { IfOk result (λ rows. map kiss_row_of rows.items ≡ flat_map (kiss_rows_on states.now) (kiss_text_in bytes.now)) }
{
    let mut words = Vec::new(alloc);
    let mut lines = Lines::new(bytes);
    let mut rows = Vec::new(alloc);
    let mut last: u64 = 0;
    while let Some(line) = lines.next_line() {
        fill(&mut words, &line)?;
        last = line.number();
        if let Some(form) = form_of(words.as_slice()) {
            match take_row(alloc, &mut rows, states, repeats, last, form) {
                Ok(()) => {}
                Err(fault) => return Err(fault),
            }
        }
    }
    if states.len() == 0 {
        return Err(TextFault::At {
            line: last,
            kind: TextKind::NoRows,
        });
    }
    Ok(rows)
}

// Takes the line of this number, which says this: its row stands behind the others.
fn take_row(
    alloc: Global,
    rows: &mut Vec<KissRow>,
    states: &NameSet,
    repeats: bool,
    line: u64,
    form: Form<'_, '_>,
) -> Result<(), TextFault>
    requires { length states.now ≤ 65536 }
    ensures fault { Finds result (fault_or (kind_of_form repeats states.now (form_said form.entry)) line None) }
    ensures rows { OnOk result (map kiss_row_of rows.new.items ≡ map kiss_row_of rows.old.items ++ kiss_rows_on states.now (form_said form.entry)) }
{
    if let Some(kind) = kind_of_form(repeats, states, form) {
        return Err(TextFault::At { line, kind });
    }
    push_row(alloc, rows, states, form)?;
    Ok(())
}

fn kind_of_form(repeats: bool, states: &NameSet, form: Form<'_, '_>) -> Option<TextKind>
    ensures { result ≡ kind_of_form repeats states.now (form_said form.entry) }
{
    if is_row(form) && repeats {
        Some(TextKind::DrivenTwice)
    } else if resets_unknown(states, form) {
        Some(TextKind::UnknownReset)
    } else {
        None
    }
}

// Whether the line names a state to start in that there isn't.
fn resets_unknown(states: &NameSet, form: Form<'_, '_>) -> bool
    ensures { result ≡ resets_unknown_at states.now (form_said form.entry) }
{
    match form {
        Form::Reset(name) => !has_state(states, name),
        _ => false,
    }
}

fn push_row(
    alloc: Global,
    rows: &mut Vec<KissRow>,
    states: &NameSet,
    form: Form<'_, '_>,
) -> Result<(), AllocError>
    requires { length states.now ≤ 65536 }
    ensures { OnOk result (map kiss_row_of rows.new.items ≡ map kiss_row_of rows.old.items ++ kiss_rows_on states.now (form_said form.entry)) }
{
    let Form::Row {
        input,
        present,
        next,
        output,
    } = form
    else {
        return Ok(());
    };
    let row = KissRow {
        input: bits_of(alloc, input)?,
        present: state_said(states, present),
        next: state_said(states, next),
        output: bits_of(alloc, output)?,
    };
    rows.push(row)?;
    Ok(())
}

fn bits_of(alloc: Global, word: &[u8]) -> Result<Vec<Bit>, AllocError>
    ensures { IfOk result (λ bits. bits.items ≡ map bit_of word.now) }
{
    let mut bits = Vec::with_capacity(alloc, word.len())?;
    for byte in word {
        bits.push(bit_of(*byte))?;
    }
    Ok(bits)
}

fn bit_of(byte: u8) -> Bit
    ensures { result ≡ bit_of byte }
{
    if byte == b'0' {
        Bit::Zero
    } else if byte == b'1' {
        Bit::One
    } else {
        Bit::Either
    }
}
