//! Takes the lines of a text one by one.

ghost use Rattle.std.specs.Prelude.{◌≡◌, ◌≤◌, false, length, Some, None, IfOk, OnOk};
ghost use Rattle.std.specs.List.{list_all};
ghost use Rattle.net_model.specs.Faults.{Finds, fault_or};
ghost use Rattle.net_model.specs.Forms.{is_name};
ghost use Rattle.net_model.specs.KissTexts.{is_bit_byte};
ghost use Rattle.blifmv_lines.specs.Said.{texts};
ghost use Rattle.kiss_reader.specs.KissFaults.{has_many_columns, has_bad_name, has_bad_bit, limit_or};
ghost use Rattle.kiss_reader.specs.Said.{form_said};
ghost use Rattle.kiss_reader.specs.Above.{AreFew, IsTaken, IsFormTaken, columns_behind, rows_limit_at, limit_of_counts, limit_at, kind_of_form_at, kind_at};

use crate::first_word::directive_of;
use crate::form::{Form, form_of};
use crate::limits::put_all;
use crate::place::{
    Place, has_bad_width, has_many_columns, is_miscounted, is_repeated, is_unknown, misses_widths,
    rows_limit,
};
use crate::states::put_states;
use blifmv_lines::is_name;
use name_table::NameSet;
use net_model::{KissDirective, TextFault, TextKind, Which};
use std::alloc::{AllocError, Global};

/// The most names of columns.
const MOST_SIGNALS: usize = 4_096;

/// Takes the line of this number with these words: its names stand among the others. Answers what it says, or its fault.
pub(crate) fn take_line<'w, 'a>(
    alloc: Global,
    place: Place,
    columns: &mut NameSet,
    states: &mut NameSet,
    line: u64,
    words: &'w [&'a [u8]],
) -> Result<Form<'w, 'a>, TextFault>
    requires rows { place.rows ≤ 1000000 }
    requires columns { length columns.old ≤ 4096 }
    requires states { length states.old ≤ 65536 }
    ensures fault { Finds result (fault_or (kind_at place columns.old states.old (texts words.now)) line None) }
    ensures taken { IfOk result (λ form. IsTaken columns.old columns.new states.old states.new (texts words.now) (form_said form)) }
{
    let [first, ..] = words else {
        return Err(TextFault::At {
            line,
            kind: TextKind::BadCount,
        });
    };
    let directive = directive_of(first);
    if is_unknown(place, directive, words) {
        return Err(TextFault::At {
            line,
            kind: TextKind::UnknownDirective,
        });
    }
    let shape = form_of(words);
    if is_miscounted(directive, shape) || is_repeated(place, directive) {
        return Err(TextFault::At {
            line,
            kind: TextKind::BadCount,
        });
    }
    let Some(form) = shape else {
        return Err(TextFault::At {
            line,
            kind: kind_of_shapeless(place, directive),
        });
    };
    take_form(alloc, place, columns, states, line, directive, form)?;
    Ok(form)
}

// The fault of a line without a shape that has no other one.
fn kind_of_shapeless(place: Place, directive: KissDirective) -> TextKind
    requires { place.rows ≤ 1000000 }
    ensures { Some result ≡ limit_or (rows_limit_at place directive) (Some TextKind.BadWidth) }
{
    match rows_limit(place, directive) {
        Some(which) => TextKind::Limit(which),
        None => TextKind::BadWidth,
    }
}

fn take_form(
    alloc: Global,
    place: Place,
    columns: &mut NameSet,
    states: &mut NameSet,
    line: u64,
    directive: KissDirective,
    form: Form<'_, '_>,
) -> Result<(), TextFault>
    requires rows { place.rows ≤ 1000000 }
    requires columns { length columns.old ≤ 4096 }
    requires states { length states.old ≤ 65536 }
    ensures fault { Finds result (fault_or (limit_or (limit_at place columns.old states.old directive (form_said form.entry)) (kind_of_form_at place (form_said form.entry))) line None) }
    ensures taken { OnOk result (IsFormTaken columns.old columns.new states.old states.new (form_said form.entry)) }
{
    if !put_columns(alloc, columns, form)? {
        return Err(TextFault::At {
            line,
            kind: TextKind::Limit(Which::Signals),
        });
    }
    if !put_states(alloc, states, form)? {
        return Err(TextFault::At {
            line,
            kind: TextKind::Limit(Which::Values),
        });
    }
    if let Some(kind) = kind_behind_names(place, directive, form) {
        return Err(TextFault::At { line, kind });
    }
    Ok(())
}

// The fault of a line whose names are not too many.
fn kind_behind_names(place: Place, directive: KissDirective, form: Form<'_, '_>) -> Option<TextKind>
    requires { place.rows ≤ 1000000 }
    ensures kind { result ≡ limit_or (limit_of_counts place directive (form_said form.entry)) (kind_of_form_at place (form_said form.entry)) }
    ensures few { result ≡ None → has_many_columns (form_said form.entry) ≡ false }
{
    match limit_of_counts(place, directive, form) {
        Some(which) => Some(TextKind::Limit(which)),
        None => kind_of_form(place, form),
    }
}

fn limit_of_counts(place: Place, directive: KissDirective, form: Form<'_, '_>) -> Option<Which>
    requires { place.rows ≤ 1000000 }
    ensures limit { result ≡ limit_of_counts place directive (form_said form.entry) }
    ensures few { result ≡ None → has_many_columns (form_said form.entry) ≡ false }
{
    if has_many_columns(form) {
        Some(Which::Columns)
    } else {
        rows_limit(place, directive)
    }
}

// Puts the names of columns on a line among the others, and says whether they are few enough.
fn put_columns(alloc: Global, columns: &mut NameSet, form: Form<'_, '_>) -> Result<bool, AllocError>
    requires { length columns.old ≤ 4096 }
    ensures { IfOk result (λ few. AreFew 4096 (columns_behind columns.old (form_said form.entry)) columns.new few) }
{
    match form {
        Form::InputNames(names) => put_all(alloc, columns, names, MOST_SIGNALS),
        Form::OutputNames(names) => put_all(alloc, columns, names, MOST_SIGNALS),
        _ => Ok(true),
    }
}

fn kind_of_form(place: Place, form: Form<'_, '_>) -> Option<TextKind>
    ensures { result ≡ kind_of_form_at place (form_said form.entry) }
{
    if has_bad_name(form) {
        Some(TextKind::BadName)
    } else if has_bad_width(place, form) {
        Some(TextKind::BadWidth)
    } else if has_bad_bit(form) {
        Some(TextKind::BadBit)
    } else if misses_widths(place, form) {
        Some(TextKind::MissingWidths)
    } else {
        None
    }
}

fn has_bad_name(form: Form<'_, '_>) -> bool
    ensures { result ≡ has_bad_name (form_said form.entry) }
{
    match form {
        Form::InputNames(names) => !are_names(names),
        Form::OutputNames(names) => !are_names(names),
        _ => false,
    }
}

fn are_names(words: &[&[u8]]) -> bool
    ensures { result ≡ list_all is_name (texts words.now) }
{
    let mut left = words;
    while let [word, more @ ..] = left {
        if !is_name(word) {
            return false;
        }
        left = more;
    }
    true
}

fn has_bad_bit(form: Form<'_, '_>) -> bool
    ensures { result ≡ has_bad_bit (form_said form.entry) }
{
    match form {
        Form::Row { input, output, .. } => !(are_bits(input) && are_bits(output)),
        _ => false,
    }
}

fn are_bits(word: &[u8]) -> bool
    ensures { result ≡ list_all is_bit_byte word.now }
{
    word.iter().all(|byte| is_bit_byte(*byte))
}

fn is_bit_byte(byte: u8) -> bool
    ensures { result ≡ is_bit_byte byte }
{
    byte == b'0' || byte == b'1' || byte == b'-'
}
