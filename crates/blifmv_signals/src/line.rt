//! The tests of one line.

ghost use Rattle.std.specs.Prelude.{◌≡◌, ◌<◌, None, length};
ghost use Rattle.net_model.specs.Forms.{shape_of};
ghost use Rattle.blifmv_lines.specs.Said.{texts, form_said};
ghost use Rattle.blifmv_signals.specs.SignalFaults.{names_outputs};
ghost use Rattle.blifmv_signals.specs.Marked.{HasMarks, is_undriven_by, is_no_reset_by, kind_of_marked, above_behind, kind_by, above_by};

use crate::above::{Above, drives_twice, resets_twice};
use crate::sets::{has_one, lacks_one};
use crate::whole::Whole;
use blifmv_lines::{Form, form_of};
use name_table::Names;
use net_conditions::Signals;
use net_model::TextKind;

// Whether a line uses a signal that nothing drives.
fn is_undriven(names: &Names, driven: &Signals, form: Form<'_, '_>) -> bool
    ensures { result ≡ is_undriven_by names.now driven.now (form_said form.entry) }
{
    match form {
        Form::Outputs(words) => lacks_one(names, driven, words),
        Form::Table { ins, outs } => lacks_one(names, driven, ins)
            || lacks_one(names, driven, outs),
        Form::Reset { ins, outs } => lacks_one(names, driven, ins)
            || lacks_one(names, driven, outs),
        Form::Latch { input, output } => lacks_one(names, driven, &[input, output]),
        _ => false,
    }
}

// Whether a line resets by what varies, or sets what is no latch output.
fn is_no_reset(names: &Names, whole: &Whole, form: Form<'_, '_>) -> bool
    ensures { result ≡ is_no_reset_by names.now whole.now (form_said form.entry) }
{
    match form {
        Form::Reset { ins, outs } => has_one(names, &whole.varying, ins)
            || lacks_one(names, &whole.latches, outs),
        _ => false,
    }
}

fn names_outputs(form: Form<'_, '_>) -> bool
    ensures { result ≡ names_outputs (form_said form.entry) }
{
    match form {
        Form::Outputs(_) => true,
        _ => false,
    }
}

// Takes a line that says this: it is one of the lines above from then on, unless it has a fault, whose kind is told.
fn take_form(
    names: &Names,
    whole: &Whole,
    above: &mut Above,
    form: Form<'_, '_>,
) -> Option<TextKind>
    requires { HasMarks names.now above.old }
    ensures kind { result ≡ kind_of_marked names.now whole.now above.old (form_said form.entry) }
    ensures above { result ≡ None → above.new ≡ above_behind names.now above.old (form_said form.entry) }
{
    if drives_twice(names, &mut above.driven, form) {
        return Some(TextKind::DrivenTwice);
    }
    if resets_twice(names, &mut above.reset, form) {
        return Some(TextKind::DrivenTwice);
    }
    if is_undriven(names, &whole.driven, form) {
        return Some(TextKind::Undriven);
    }
    if is_no_reset(names, whole, form) {
        return Some(TextKind::ResetNotConstant);
    }
    if names_outputs(form) {
        if !above.has_outputs && !whole.acceptance {
            return Some(TextKind::AccShape);
        }
        above.has_outputs = true;
    }
    None
}

// Takes a line of these words, which says nothing without the form of its directive.
pub(crate) fn take_line(
    names: &Names,
    whole: &Whole,
    above: &mut Above,
    words: &[&[u8]],
) -> Option<TextKind>
    requires { HasMarks names.now above.old }
    ensures kind { result ≡ kind_by names.now whole.now above.old (shape_of (texts words.now)) }
    ensures above { result ≡ None → above.new ≡ above_by names.now above.old (shape_of (texts words.now)) }
{
    match form_of(words) {
        Some(form) => take_form(names, whole, above, form),
        None => None,
    }
}
