//! What a line says.

ghost use Rattle.std.specs.Prelude.{◌≡◌};
ghost use Rattle.std.specs.List.{list_all};
ghost use Rattle.std.specs.Option.{option_map};
ghost use Rattle.net_model.specs.Forms.{is_digit, is_number};
ghost use Rattle.net_model.specs.KissForms.{InputsWidth, OutputsWidth, CountLine, ResetState, is_width, width_shape, word_shape, last_shape, step_shape, kiss_shape_of};
ghost use Rattle.net_model.specs.KissTexts.{is_step};
ghost use Rattle.blifmv_lines.specs.Said.{texts};
ghost use Rattle.kiss_reader.specs.Said.{form_said, row_shape};

use crate::first_word::directive_of;
use blifmv_lines::number_of;
use net_model::KissDirective;

/// What a line says. The words are slices of the text, and the lists of them slices of the buffer.
#[derive(Clone, Copy)]
pub(crate) enum Form<'w, 'a> {
    /// How many input columns there are, in decimal digits.
    Inputs(&'a [u8]),
    Outputs(&'a [u8]),
    /// A number that is not compared.
    Count,
    /// The state in which the machine starts.
    Reset(&'a [u8]),
    InputNames(&'w [&'a [u8]]),
    OutputNames(&'w [&'a [u8]]),
    Row {
        input: &'a [u8],
        present: &'a [u8],
        next: &'a [u8],
        output: &'a [u8],
    },
    End,
}

/// What a line with these words says, or `None` where it hasn't the shape of its directive.
pub(crate) fn form_of<'w, 'a>(words: &'w [&'a [u8]]) -> Option<Form<'w, 'a>>
    ensures { option_map form_said result ≡ kiss_shape_of (texts words.now) }
{
    let [first, rest @ ..] = words else {
        return None;
    };
    match directive_of(first) {
        KissDirective::Inputs => inputs_form(rest),
        KissDirective::Outputs => outputs_form(rest),
        KissDirective::Count => count_form(rest),
        KissDirective::Reset => reset_form(rest),
        KissDirective::InputNames => Some(Form::InputNames(rest)),
        KissDirective::OutputNames => Some(Form::OutputNames(rest)),
        KissDirective::End => end_form(rest),
        KissDirective::Unknown => None,
        KissDirective::Row => row_form(words),
    }
}

fn inputs_form<'w, 'a>(words: &'w [&'a [u8]]) -> Option<Form<'w, 'a>>
    ensures { option_map form_said result ≡ width_shape InputsWidth (texts words.now) }
{
    match words {
        [] => None,
        [width] => if is_width(width) {
            Some(Form::Inputs(width))
        } else {
            None
        },
        [_, _, ..] => None,
    }
}

fn outputs_form<'w, 'a>(words: &'w [&'a [u8]]) -> Option<Form<'w, 'a>>
    ensures { option_map form_said result ≡ width_shape OutputsWidth (texts words.now) }
{
    match words {
        [] => None,
        [width] => if is_width(width) {
            Some(Form::Outputs(width))
        } else {
            None
        },
        [_, _, ..] => None,
    }
}

// Whether the word is a number from 1 up.
fn is_width(word: &[u8]) -> bool
    ensures { result ≡ is_width word.now }
{
    is_number(word) && number_of(word) > 0
}

fn is_number(word: &[u8]) -> bool
    ensures { result ≡ is_number word.now }
{
    !word.is_empty() && are_digits(word)
}

fn are_digits(word: &[u8]) -> bool
    ensures { result ≡ list_all is_digit word.now }
{
    word.iter().all(|byte| is_digit(*byte))
}

fn is_digit(byte: u8) -> bool
    ensures { result ≡ is_digit byte }
{
    byte >= b'0' && byte <= b'9'
}

fn count_form<'w, 'a>(words: &'w [&'a [u8]]) -> Option<Form<'w, 'a>>
    ensures { option_map form_said result ≡ word_shape (λ word. CountLine) (texts words.now) }
{
    match words {
        [] => None,
        [_] => Some(Form::Count),
        [_, _, ..] => None,
    }
}

fn reset_form<'w, 'a>(words: &'w [&'a [u8]]) -> Option<Form<'w, 'a>>
    ensures { option_map form_said result ≡ word_shape ResetState (texts words.now) }
{
    match words {
        [] => None,
        [name] => Some(Form::Reset(name)),
        [_, _, ..] => None,
    }
}

fn end_form<'w, 'a>(words: &'w [&'a [u8]]) -> Option<Form<'w, 'a>>
    ensures { option_map form_said result ≡ last_shape (texts words.now) }
{
    match words {
        [] => Some(Form::End),
        [_, ..] => None,
    }
}

fn row_form<'w, 'a>(words: &'w [&'a [u8]]) -> Option<Form<'w, 'a>>
    ensures { option_map form_said result ≡ row_shape (texts words.now) }
{
    match words {
        [] => None,
        [_] => None,
        [_, _] => None,
        [_, _, _] => None,
        [input, present, next, output] => Some(Form::Row {
            input,
            present,
            next,
            output,
        }),
        [_, _, _, _, _, ..] => None,
    }
}

/// Whether the line is a row.
pub(crate) fn is_row(form: Form<'_, '_>) -> bool
    ensures { result ≡ is_step (form_said form.entry) }
{
    matches!(form, Form::Row { .. })
}
