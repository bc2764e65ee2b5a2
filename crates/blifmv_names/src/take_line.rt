//! Takes the lines of a text one by one.

ghost use Rattle.std.specs.Prelude.{◌≡◌, ◌≤◌, if◌then◌else◌, length, IfOk, IfErr, OnOk};
ghost use Rattle.blifmv_lines.specs.Said.{texts, form_said};
ghost use Rattle.blifmv_names.specs.Signals.{with_mentions};
ghost use Rattle.blifmv_names.specs.LineFaults.{kind_of_words, kind_of_form, kind_of_rows, kind_of_spelling, is_instance_word, IsTaken, IsFormTaken, IsKind, IsCounted};

use crate::giving::give;
use crate::line_fault::LineFault;
use crate::mention::mention;
use crate::place::{
    Place, Width, is_misfit, is_model, is_second_default, is_unknown, limit_of_line, place_behind,
};
use crate::signal_table::SignalTable;
use blifmv_lines::{Form, directive_of, form_of, has_names};
use net_model::{Directive, TextKind, Which};
use std::alloc::Global;

// Takes a line with these words: its signals stand among the others, and its domain is given. Answers the place behind
// it, or its fault.
pub(crate) fn take_line(
    alloc: Global,
    place: Place,
    signals: &mut SignalTable,
    words: &[&[u8]],
) -> Result<Place, LineFault>
    requires rows { place.rows ≤ 1000000 }
    requires few { length signals.old ≤ 4096 }
    ensures ok { IfOk result (λ next. IsTaken place signals.old signals.new (texts words.now) next) }
    ensures fault { IfErr result (IsKind (kind_of_words place signals.old (texts words.now))) }
    ensures rows { IfOk result (λ next. next.rows ≤ 1000000) }
    ensures few { OnOk result (length signals.new ≤ 4096) }
{
    let [first, ..] = words else {
        return Err(LineFault::Kind(TextKind::BadCount));
    };
    let directive = directive_of(first);
    if is_unknown(place, directive, words) {
        return Err(LineFault::Kind(TextKind::UnknownDirective));
    }
    let Some(form) = form_of(words) else {
        return Err(LineFault::Kind(kind_of_shapeless(directive)));
    };
    let next = take_form(alloc, place, signals, form)?;
    Ok(next)
}

// The fault of a line without the shape of its directive.
fn kind_of_shapeless(directive: Directive) -> TextKind
    ensures { result ≡ (if is_instance_word directive then TextKind.Hierarchy else TextKind.BadCount) }
{
    match directive {
        Directive::Instance => TextKind::Hierarchy,
        _ => TextKind::BadCount,
    }
}

fn take_form(
    alloc: Global,
    place: Place,
    signals: &mut SignalTable,
    form: Form<'_, '_>,
) -> Result<Place, LineFault>
    requires rows { place.rows ≤ 1000000 }
    requires few { length signals.old ≤ 4096 }
    requires counted { IsCounted (form_said form) }
    ensures ok { IfOk result (λ next. IsFormTaken place signals.old signals.new (form_said form.entry) next) }
    ensures fault { IfErr result (IsKind (kind_of_form place (with_mentions signals.old (form_said form.entry)) (form_said form.entry))) }
    ensures rows { IfOk result (λ next. next.rows ≤ 1000000) }
    ensures few { OnOk result (length signals.new ≤ 4096) }
{
    if let Some(kind) = kind_of_rows(place.width, form) {
        return Err(LineFault::Kind(kind));
    }
    if !mention(signals, form)? {
        return Err(LineFault::Kind(TextKind::Limit(Which::Signals)));
    }
    if let Some(which) = limit_of_line(place.rows, form) {
        return Err(LineFault::Kind(TextKind::Limit(which)));
    }
    if let Some(kind) = kind_of_spelling(place, form) {
        return Err(LineFault::Kind(kind));
    }
    if !give(alloc, signals, form)? {
        return Err(LineFault::Kind(TextKind::BadDomain));
    }
    Ok(place_behind(place, form))
}

fn kind_of_rows(width: Option<Width>, form: Form<'_, '_>) -> Option<TextKind>
    ensures { result ≡ kind_of_rows width (form_said form.entry) }
{
    if is_misfit(width, form) {
        Some(TextKind::RowWidth)
    } else if is_second_default(width, form) {
        Some(TextKind::TwiceDefault)
    } else {
        None
    }
}

fn kind_of_spelling(place: Place, form: Form<'_, '_>) -> Option<TextKind>
    ensures { result ≡ kind_of_spelling place (form_said form.entry) }
{
    if is_model(form) && place.begun {
        Some(TextKind::Hierarchy)
    } else if !has_names(form) {
        Some(TextKind::BadName)
    } else {
        None
    }
}
