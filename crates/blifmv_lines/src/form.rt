//! What a line says.

ghost use Rattle.std.specs.Prelude.{◌≡◌};
ghost use Rattle.std.specs.Option.{option_map};
ghost use Rattle.net_model.specs.Forms.{TableLine, ResetLine, behind_arrow, table_shape, shape_of, has_names};
ghost use Rattle.blifmv_lines.specs.Said.{texts, form_said};

use crate::first_word::directive_of;
use crate::naming::{are_listed_names, are_names, are_value_names, is_name};
use crate::shapes::{columns_of, domains_form, end_form, latch_form, model_form};
use crate::signs::has_mark;
use net_model::Directive;

/// What a line says. The words are slices of the text, and the lists of them slices of the buffer.
#[derive(Clone, Copy)]
pub enum Form<'w, 'a> {
    /// The name of the model, where it has one.
    Model(&'w [&'a [u8]]),
    Inputs(&'w [&'a [u8]]),
    Outputs(&'w [&'a [u8]]),
    /// The names with the commas between them, how many values they have, and the names of the values, where they are
    /// given.
    Domains {
        names: &'w [&'a [u8]],
        count: &'a [u8],
        values: &'w [&'a [u8]],
    },
    Table {
        ins: &'w [&'a [u8]],
        outs: &'w [&'a [u8]],
    },
    Reset {
        ins: &'w [&'a [u8]],
        outs: &'w [&'a [u8]],
    },
    Latch {
        input: &'a [u8],
        output: &'a [u8],
    },
    /// The words behind the directive.
    Default(&'w [&'a [u8]]),
    End,
    /// All words of the line.
    Row(&'w [&'a [u8]]),
}

/// What a line with these words says, or `None` where it hasn't the shape of its directive or the directive is none of
/// a network of one model. Whether names are spelled well is another matter.
pub fn form_of<'w, 'a>(words: &'w [&'a [u8]]) -> Option<Form<'w, 'a>>
    ensures { option_map form_said result ≡ shape_of (texts words.now) }
{
    let [first, rest @ ..] = words else {
        return None;
    };
    match directive_of(first) {
        Directive::Model => model_form(rest),
        Directive::Inputs => if has_mark(rest) {
            None
        } else {
            Some(Form::Inputs(rest))
        },
        Directive::Outputs => if has_mark(rest) {
            None
        } else {
            Some(Form::Outputs(rest))
        },
        Directive::Domains => domains_form(rest),
        Directive::Table => table_form(rest),
        Directive::Reset => reset_form(rest),
        Directive::Latch => latch_form(rest),
        Directive::Default => Some(Form::Default(rest)),
        Directive::Instance => None,
        Directive::End => end_form(rest),
        Directive::Unknown => None,
        Directive::Row => Some(Form::Row(words)),
    }
}

fn table_form<'w, 'a>(words: &'w [&'a [u8]]) -> Option<Form<'w, 'a>>
    ensures { option_map form_said result ≡ table_shape TableLine (texts words.now) (behind_arrow (texts words.now)) }
{
    let columns = columns_of(words)?;
    Some(Form::Table {
        ins: columns.ins,
        outs: columns.outs,
    })
}

fn reset_form<'w, 'a>(words: &'w [&'a [u8]]) -> Option<Form<'w, 'a>>
    ensures { option_map form_said result ≡ table_shape ResetLine (texts words.now) (behind_arrow (texts words.now)) }
{
    let columns = columns_of(words)?;
    Some(Form::Reset {
        ins: columns.ins,
        outs: columns.outs,
    })
}

/// Whether each word at the place of a name, or of a value's name, can be one.
pub fn has_names(form: Form<'_, '_>) -> bool
    ensures { result ≡ has_names (form_said form.entry) }
{
    match form {
        Form::Model(names) => are_names(names),
        Form::Inputs(names) => are_names(names),
        Form::Outputs(names) => are_names(names),
        Form::Domains { names, values, .. } => are_listed_names(names) && are_value_names(values),
        Form::Table { ins, outs } => are_names(ins) && are_names(outs),
        Form::Reset { ins, outs } => are_names(ins) && are_names(outs),
        Form::Latch { input, output } => is_name(input) && is_name(output),
        Form::Default(_) => true,
        Form::End => true,
        Form::Row(_) => true,
    }
}
