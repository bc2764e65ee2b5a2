//! What stands above a line of a text, and the faults that come of it.

ghost use Rattle.std.specs.Prelude.{◌≡◌, ◌≤◌, false, is_some};
ghost use Rattle.std.specs.Option.{option_map};
ghost use Rattle.net_model.specs.KissTexts.{is_last};
ghost use Rattle.blifmv_lines.specs.Said.{texts};
ghost use Rattle.kiss_reader.specs.KissFaults.{agrees, has_many_columns, is_miscounted};
ghost use Rattle.kiss_reader.specs.Said.{form_said};
ghost use Rattle.kiss_reader.specs.Header.{or_first, input_width_on, output_width_on, reset_on, input_names_on, output_names_on};
ghost use Rattle.kiss_reader.specs.Above.{nothing_above, is_unknown_at, is_repeated_at, rows_limit_at, has_bad_width_at, misses_widths_at, rows_on, place_behind};

use crate::first_word::{is_end_word, is_row_word, is_unknown_word};
use crate::form::Form;
use blifmv_lines::number_of;
use net_model::{KissDirective, Which};

/// The most columns of the inputs, and of the outputs.
const MOST_COLUMNS: u64 = 256;
/// The most rows of a text.
const MOST_ROWS: u64 = 1_000_000;

/// What the first pass knows of the lines above, beside their names.
#[derive(Clone, Copy)]
pub(crate) struct Place {
    /// How many input columns there are, where a line above says it.
    pub inputs: Option<u64>,
    pub outputs: Option<u64>,
    /// The state to start in stands above.
    pub has_reset: bool,
    /// The names of the input columns stand above.
    pub has_inputs: bool,
    pub has_outputs: bool,
    /// How many rows stand above.
    pub rows: u64,
    /// The end stands above.
    pub ended: bool,
}

impl Place {
    /// Above the first line.
    pub(crate) fn new() -> Place
        ensures { result ≡ nothing_above }
    {
        Place {
            inputs: None,
            outputs: None,
            has_reset: false,
            has_inputs: false,
            has_outputs: false,
            rows: 0,
            ended: false,
        }
    }
}

/// Whether nothing of the kind can stand here: a line that is told to be this, and has these words.
pub(crate) fn is_unknown(place: Place, directive: KissDirective, words: &[&[u8]]) -> bool
    ensures { result ≡ is_unknown_at place directive (texts words.now) }
{
    is_unknown_word(directive) || place.ended || (is_end_word(directive) && words.len() > 1)
}

/// Whether the line has a number of words that its directive doesn't have, where no width and no row is told.
pub(crate) fn is_miscounted(directive: KissDirective, shape: Option<Form<'_, '_>>) -> bool
    ensures { result ≡ is_miscounted directive (option_map form_said shape.entry) }
{
    match directive {
        KissDirective::Count => shape.is_none(),
        KissDirective::Reset => shape.is_none(),
        _ => false,
    }
}

/// Whether this is given once at most and stands above, or is names behind a row.
pub(crate) fn is_repeated(place: Place, directive: KissDirective) -> bool
    ensures { result ≡ is_repeated_at place directive }
{
    match directive {
        KissDirective::Inputs => place.inputs.is_some(),
        KissDirective::Outputs => place.outputs.is_some(),
        KissDirective::Reset => place.has_reset,
        KissDirective::InputNames => place.has_inputs || place.rows > 0,
        KissDirective::OutputNames => place.has_outputs || place.rows > 0,
        _ => false,
    }
}

/// Which limit is passed by one row more, where the line is a row.
pub(crate) fn rows_limit(place: Place, directive: KissDirective) -> Option<Which>
    requires { place.rows ≤ 1000000 }
    ensures { result ≡ rows_limit_at place directive }
{
    if is_row_word(directive) && place.rows + 1 > MOST_ROWS {
        Some(Which::Rows)
    } else {
        None
    }
}

pub(crate) fn has_many_columns(form: Form<'_, '_>) -> bool
    ensures { result ≡ has_many_columns (form_said form.entry) }
{
    match form {
        Form::Inputs(count) => number_of(count) > MOST_COLUMNS,
        Form::Outputs(count) => number_of(count) > MOST_COLUMNS,
        _ => false,
    }
}

// Whether these are as many as the width says, where it is known.
fn agrees(width: Option<u64>, count: usize) -> bool
    ensures { result ≡ agrees width count }
{
    match width {
        Some(width) => count as u64 == width,
        None => true,
    }
}

pub(crate) fn has_bad_width(place: Place, form: Form<'_, '_>) -> bool
    ensures { result ≡ has_bad_width_at place (form_said form.entry) }
{
    match form {
        Form::InputNames(names) => !agrees(place.inputs, names.len()),
        Form::OutputNames(names) => !agrees(place.outputs, names.len()),
        Form::Row { input, output, .. } => {
            !(agrees(place.inputs, input.len()) && agrees(place.outputs, output.len()))
        }
        _ => false,
    }
}

pub(crate) fn misses_widths(place: Place, form: Form<'_, '_>) -> bool
    ensures { result ≡ misses_widths_at place (form_said form.entry) }
{
    match form {
        Form::InputNames(_) => place.inputs.is_none(),
        Form::OutputNames(_) => place.outputs.is_none(),
        Form::Row { .. } => !(place.inputs.is_some() && place.outputs.is_some()),
        _ => false,
    }
}

fn inputs_behind(width: Option<u64>, form: Form<'_, '_>) -> Option<u64>
    requires { has_many_columns (form_said form) ≡ false }
    ensures { result ≡ or_first width (input_width_on (form_said form.entry)) }
{
    match (width, form) {
        (None, Form::Inputs(count)) => Some(number_of(count)),
        (_, _) => width,
    }
}

fn outputs_behind(width: Option<u64>, form: Form<'_, '_>) -> Option<u64>
    requires { has_many_columns (form_said form) ≡ false }
    ensures { result ≡ or_first width (output_width_on (form_said form.entry)) }
{
    match (width, form) {
        (None, Form::Outputs(count)) => Some(number_of(count)),
        (_, _) => width,
    }
}

fn is_reset(form: Form<'_, '_>) -> bool
    ensures { result ≡ is_some (reset_on (form_said form.entry)) }
{
    matches!(form, Form::Reset(_))
}

fn is_input_names(form: Form<'_, '_>) -> bool
    ensures { result ≡ is_some (input_names_on (form_said form.entry)) }
{
    matches!(form, Form::InputNames(_))
}

fn is_output_names(form: Form<'_, '_>) -> bool
    ensures { result ≡ is_some (output_names_on (form_said form.entry)) }
{
    matches!(form, Form::OutputNames(_))
}

fn is_last(form: Form<'_, '_>) -> bool
    ensures { result ≡ is_last (form_said form.entry) }
{
    matches!(form, Form::End)
}

fn rows_on(form: Form<'_, '_>) -> u64
    ensures rows { result ≡ rows_on (form_said form.entry) }
    ensures few { result ≤ 1 }
{
    match form {
        Form::Row { .. } => 1,
        _ => 0,
    }
}

/// The place behind a line.
pub(crate) fn place_behind(place: Place, form: Form<'_, '_>) -> Place
    requires rows { place.rows ≤ 1000000 }
    requires columns { has_many_columns (form_said form) ≡ false }
    ensures { result ≡ place_behind place (form_said form.entry) }
{
    Place {
        inputs: inputs_behind(place.inputs, form),
        outputs: outputs_behind(place.outputs, form),
        has_reset: place.has_reset || is_reset(form),
        has_inputs: place.has_inputs || is_input_names(form),
        has_outputs: place.has_outputs || is_output_names(form),
        rows: place.rows + rows_on(form),
        ended: place.ended || is_last(form),
    }
}
