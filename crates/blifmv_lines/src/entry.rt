//! The entries that the words of a row spell.

ghost use Rattle.std.specs.Prelude.{◌≡◌, ◌<◌, length, IfSome};
ghost use Rattle.std.specs.Option.{option_map};
ghost use Rattle.net_model.specs.Spellings.{Listed, as_taken, list_at, denied_list_at, word_entry, entry_at};
ghost use Rattle.blifmv_lines.specs.Said.{texts, spelled_said, taken_said, list_taken};
ghost use Rattle.blifmv_lines.specs.Places.{list_place};

use crate::signs::{begins_with, is_closing, is_comma, is_denial, is_list_sign, is_opening};

/// An entry as it is spelled.
#[derive(Clone, Copy)]
pub enum Spelled<'w, 'a> {
    /// `-`
    Dash,
    /// A value's name.
    One(&'a [u8]),
    /// Names in parentheses, here with the commas between them.
    Listed(&'w [&'a [u8]]),
    /// The name behind `!`.
    NotThis(&'a [u8]),
    /// The names of the list behind `!`, with the commas between them.
    NotListed(&'w [&'a [u8]]),
    /// The name of a signal behind `=`.
    Same(&'a [u8]),
}

/// The first entry of some words, and the words behind it.
#[derive(Clone, Copy)]
pub struct Taken<'w, 'a> {
    pub entry: Spelled<'w, 'a>,
    pub rest: &'w [&'a [u8]],
}

impl<'w, 'a> Taken<'w, 'a> {
    /// The words behind the entry.
    pub fn behind(self) -> &'w [&'a [u8]]
        ensures { result.now ≡ self.entry.rest.now }
    {
        self.rest
    }
}

/// The first entry that the words spell, or `None` where they spell none.
pub fn entry_at<'w, 'a>(words: &'w [&'a [u8]]) -> Option<Taken<'w, 'a>>
    ensures { option_map taken_said result ≡ entry_at (texts words.now) }
{
    let [word, rest @ ..] = words else {
        return None;
    };
    if is_opening(word) {
        listed_at(rest)
    } else if is_denial(word) {
        denied_list_at(rest)
    } else if is_closing(word) || is_comma(word) {
        None
    } else {
        Some(Taken {
            entry: word_entry(word),
            rest,
        })
    }
}

// An entry of one word.
fn word_entry<'w, 'a>(word: &'a [u8]) -> Spelled<'w, 'a>
    ensures { spelled_said result ≡ word_entry word.now }
{
    if word == b"-".as_slice() {
        Spelled::Dash
    } else if begins_with(b'!', word) {
        Spelled::NotThis(&word[1..])
    } else if begins_with(b'=', word) {
        Spelled::Same(&word[1..])
    } else {
        Spelled::One(word)
    }
}

// A list, behind its opening parenthesis.
fn listed_at<'w, 'a>(words: &'w [&'a [u8]]) -> Option<Taken<'w, 'a>>
    ensures { option_map taken_said result ≡ as_taken Listed (list_at (texts words.now)) }
{
    let (names, rest) = list_at(words)?;
    Some(Taken {
        entry: Spelled::Listed(names),
        rest,
    })
}

// A list and its parentheses, behind the word `!`.
fn denied_list_at<'w, 'a>(words: &'w [&'a [u8]]) -> Option<Taken<'w, 'a>>
    ensures { option_map taken_said result ≡ denied_list_at (texts words.now) }
{
    let [word, behind @ ..] = words else {
        return None;
    };
    if !is_opening(word) {
        return None;
    }
    let (names, rest) = list_at(behind)?;
    Some(Taken {
        entry: Spelled::NotListed(names),
        rest,
    })
}

// The names of a list with the commas between them, and the words behind the closing parenthesis.
fn list_at<'w, 'a>(words: &'w [&'a [u8]]) -> Option<(&'w [&'a [u8]], &'w [&'a [u8]])>
    ensures { option_map (λ parts. list_taken parts.0.now parts.1.now) result ≡ list_at (texts words.now) }
{
    let place = list_place(words)?;
    let (names, rest) = words.split_at(place);
    Some((names, &rest[1..]))
}

// The place of the closing parenthesis of a list, behind its opening one.
fn list_place(words: &[&[u8]]) -> Option<usize>
    ensures place { result ≡ list_place (texts words.now) }
    ensures within { IfSome result (λ place. place < length words.now) }
{
    let mut at: usize = 0;
    let mut left = words;
    while let [name, sign, more @ ..] = left {
        if is_list_sign(name) {
            return None;
        }
        if is_closing(sign) {
            return Some(at + 1);
        }
        if !is_comma(sign) {
            return None;
        }
        at += 2;
        left = more;
    }
    None
}
