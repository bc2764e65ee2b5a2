//! What stands above a line of a text, and the faults that come of it.

ghost use Rattle.std.specs.Prelude.{◌≡◌, ◌≤◌};
ghost use Rattle.net_model.specs.NetTexts.{is_model, is_end};
ghost use Rattle.blifmv_lines.specs.Said.{texts, form_said};
ghost use Rattle.blifmv_names.specs.LineFaults.{is_unknown, is_misfit, is_second_default, limit_of_line, has_many_values, has_many_columns, rows_on, with_default, width_behind, place_behind};

use blifmv_lines::{Form, number_of, spells};
use net_model::{Directive, Which};

/// The most values of a domain.
const MOST_VALUES: u64 = 65_536;
/// The most columns of a table.
const MOST_COLUMNS: usize = 256;
/// The most rows of a file, defaults among them.
const MOST_ROWS: u64 = 1_000_000;

/// How many columns the open table has, how many of them are outputs, and whether it has had its default.
#[derive(Clone, Copy, Debug, PartialEq, Eq)]
pub struct Width {
    pub columns: usize,
    pub outs: usize,
    pub has_default: bool,
}

/// What the first pass knows of the lines above, beside their signals.
#[derive(Clone, Copy, Debug, PartialEq, Eq)]
pub struct Place {
    /// A model's line stands above.
    pub begun: bool,
    /// The end stands above.
    pub ended: bool,
    /// The table that stands open.
    pub width: Option<Width>,
    /// How many rows stand above, defaults among them.
    pub rows: u64,
}

// Whether nothing of the kind can stand here: a line that is told to be this, and has these words.
pub(crate) fn is_unknown(place: Place, directive: Directive, words: &[&[u8]]) -> bool
    ensures { result ≡ is_unknown place directive (texts words.now) }
{
    match directive {
        Directive::Unknown => true,
        Directive::Model => false,
        Directive::End => place.ended || words.len() > 1,
        _ => place.ended,
    }
}

// Whether a row or default has no open table, or spells another number of entries than it has columns.
pub(crate) fn is_misfit(width: Option<Width>, form: Form<'_, '_>) -> bool
    ensures { result ≡ is_misfit width (form_said form.entry) }
{
    match form {
        Form::Row(words) => match width {
            Some(open) => !spells(open.columns, words),
            None => true,
        },
        Form::Default(words) => match width {
            Some(open) => !spells(open.outs, words),
            None => true,
        },
        _ => false,
    }
}

// Whether this is one more default of the open table.
pub(crate) fn is_second_default(width: Option<Width>, form: Form<'_, '_>) -> bool
    ensures { result ≡ is_second_default width (form_said form.entry) }
{
    match form {
        Form::Default(_) => match width {
            Some(open) => open.has_default,
            None => false,
        },
        _ => false,
    }
}

fn has_many_values(form: Form<'_, '_>) -> bool
    ensures { result ≡ has_many_values (form_said form.entry) }
{
    match form {
        Form::Domains { count, .. } => number_of(count) > MOST_VALUES,
        _ => false,
    }
}

fn has_many_columns(form: Form<'_, '_>) -> bool
    ensures { result ≡ has_many_columns (form_said form.entry) }
{
    match form {
        Form::Table { ins, outs } => ins.len() + outs.len() > MOST_COLUMNS,
        Form::Reset { ins, outs } => ins.len() + outs.len() > MOST_COLUMNS,
        _ => false,
    }
}

// How many rows the line is.
fn rows_on(form: Form<'_, '_>) -> u64
    ensures rows { result ≡ rows_on (form_said form.entry) }
    ensures few { result ≤ 1 }
{
    match form {
        Form::Row(_) => 1,
        Form::Default(_) => 1,
        _ => 0,
    }
}

// Which count of the line passes its limit, beside that of the signals, with so many rows above.
pub(crate) fn limit_of_line(rows: u64, form: Form<'_, '_>) -> Option<Which>
    requires { rows ≤ 1000000 }
    ensures { result ≡ limit_of_line rows (form_said form.entry) }
{
    if has_many_values(form) {
        Some(Which::Values)
    } else if has_many_columns(form) {
        Some(Which::Columns)
    } else if rows + rows_on(form) > MOST_ROWS {
        Some(Which::Rows)
    } else {
        None
    }
}

pub(crate) fn is_model(form: Form<'_, '_>) -> bool
    ensures { result ≡ is_model (form_said form.entry) }
{
    matches!(form, Form::Model(_))
}

fn is_end(form: Form<'_, '_>) -> bool
    ensures { result ≡ is_end (form_said form.entry) }
{
    matches!(form, Form::End)
}

fn width_behind(width: Option<Width>, form: Form<'_, '_>) -> Option<Width>
    ensures { result ≡ width_behind width (form_said form.entry) }
{
    match form {
        Form::Table { ins, outs } => Some(Width {
            columns: ins.len() + outs.len(),
            outs: outs.len(),
            has_default: false,
        }),
        Form::Reset { ins, outs } => Some(Width {
            columns: ins.len() + outs.len(),
            outs: outs.len(),
            has_default: false,
        }),
        Form::Row(_) => width,
        Form::Default(_) => with_default(width),
        _ => None,
    }
}

fn with_default(width: Option<Width>) -> Option<Width>
    ensures { result ≡ with_default width }
{
    match width {
        Some(open) => Some(Width {
            columns: open.columns,
            outs: open.outs,
            has_default: true,
        }),
        None => None,
    }
}

// The place behind a line.
pub(crate) fn place_behind(place: Place, form: Form<'_, '_>) -> Place
    requires { place.rows ≤ 1000000 }
    ensures { result ≡ place_behind place (form_said form.entry) }
{
    Place {
        begun: place.begun || is_model(form),
        ended: place.ended || is_end(form),
        width: width_behind(place.width, form),
        rows: place.rows + rows_on(form),
    }
}
