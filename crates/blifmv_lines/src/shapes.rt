//! The shapes of lines: which words stand where.

ghost use Rattle.std.specs.Prelude.{◌≡◌, ◌<◌, [], length, IfSome};
ghost use Rattle.std.specs.Option.{option_map};
ghost use Rattle.net_model.specs.Forms.{TableLine, ResetLine, model_shape, latch_shape, end_shape, domains_shape, before_arrow, behind_arrow, columns_shape, table_shape};
ghost use Rattle.blifmv_lines.specs.Said.{texts, listed_names, form_said};
ghost use Rattle.blifmv_lines.specs.Places.{count_place, counted_shape};
ghost use Rattle.blifmv_lines.specs.InsOuts.{table_said, reset_said};

use crate::form::Form;
use crate::number::has_count;
use crate::signs::{has_mark, is_arrow, is_comma, is_mark};

/// The inputs and the outputs of a table.
#[derive(Clone, Copy)]
pub struct Columns<'w, 'a> {
    pub ins: &'w [&'a [u8]],
    pub outs: &'w [&'a [u8]],
}

pub fn model_form<'w, 'a>(words: &'w [&'a [u8]]) -> Option<Form<'w, 'a>>
    ensures { option_map form_said result ≡ model_shape (texts words.now) }
{
    match words {
        [] => Some(Form::Model(words)),
        [name] => if is_mark(name) {
            None
        } else {
            Some(Form::Model(words))
        },
        [_, _, ..] => None,
    }
}

pub fn latch_form<'w, 'a>(words: &'w [&'a [u8]]) -> Option<Form<'w, 'a>>
    ensures { option_map form_said result ≡ latch_shape (texts words.now) }
{
    match words {
        [] => None,
        [_] => None,
        [input, output] => if is_mark(input) || is_mark(output) {
            None
        } else {
            Some(Form::Latch { input, output })
        },
        [_, _, _, ..] => None,
    }
}

pub fn end_form<'w, 'a>(words: &'w [&'a [u8]]) -> Option<Form<'w, 'a>>
    ensures { option_map form_said result ≡ end_shape (texts words.now) }
{
    match words {
        [] => Some(Form::End),
        [_, ..] => None,
    }
}

pub fn domains_form<'w, 'a>(words: &'w [&'a [u8]]) -> Option<Form<'w, 'a>>
    ensures { option_map form_said result ≡ domains_shape [] (texts words.now) }
{
    let place = count_place(words)?;
    let (names, rest) = words.split_at(place);
    counted_form(names, rest)
}

// What a line says with these names, and behind them a count and values.
fn counted_form<'w, 'a>(names: &'w [&'a [u8]], rest: &'w [&'a [u8]]) -> Option<Form<'w, 'a>>
    ensures { option_map form_said result ≡ counted_shape (listed_names (texts names.now)) (texts rest.now) }
{
    let [count, values @ ..] = rest else {
        return None;
    };
    if !has_count(count, values) || has_mark(values) {
        return None;
    }
    Some(Form::Domains {
        names,
        count,
        values,
    })
}

// The place of the count behind the names of domains.
fn count_place(words: &[&[u8]]) -> Option<usize>
    ensures place { result ≡ count_place (texts words.now) }
    ensures within { IfSome result (λ place. place < length words.now) }
{
    let mut at: usize = 0;
    let mut left = words;
    while let [name, word, more @ ..] = left {
        if is_mark(name) {
            return None;
        }
        if !is_comma(word) {
            return Some(at + 1);
        }
        at += 2;
        left = more;
    }
    None
}

/// The columns of a table.
pub fn columns_of<'w, 'a>(words: &'w [&'a [u8]]) -> Option<Columns<'w, 'a>>
    ensures table { option_map table_said result ≡ table_shape TableLine (texts words.now) (behind_arrow (texts words.now)) }
    ensures reset { option_map reset_said result ≡ table_shape ResetLine (texts words.now) (behind_arrow (texts words.now)) }
{
    match split_at_arrow(words) {
        Some((ins, outs)) => checked_columns(ins, outs),
        None => {
            let (ins, outs) = words.split_at(words.len().saturating_sub(1));
            checked_columns(ins, outs)
        }
    }
}

// The words before the first arrow, and those behind it.
fn split_at_arrow<'w, 'a>(words: &'w [&'a [u8]]) -> Option<(&'w [&'a [u8]], &'w [&'a [u8]])>
    ensures behind { option_map (λ parts. texts parts.1.now) result ≡ behind_arrow (texts words.now) }
    ensures before { IfSome result (λ parts. texts parts.0.now ≡ before_arrow (texts words.now)) }
{
    let mut at: usize = 0;
    let mut left = words;
    while let [word, more @ ..] = left {
        if is_arrow(word) {
            let (before, _) = words.split_at(at);
            return Some((before, more));
        }
        at += 1;
        left = more;
    }
    None
}

fn checked_columns<'w, 'a>(ins: &'w [&'a [u8]], outs: &'w [&'a [u8]]) -> Option<Columns<'w, 'a>>
    ensures table { option_map table_said result ≡ columns_shape TableLine (texts ins.now) (texts outs.now) }
    ensures reset { option_map reset_said result ≡ columns_shape ResetLine (texts ins.now) (texts outs.now) }
{
    if outs.is_empty() || has_mark(ins) || has_mark(outs) {
        return None;
    }
    Some(Columns { ins, outs })
}
