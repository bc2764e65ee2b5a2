//! Which words can be names.

ghost use Rattle.std.specs.Prelude.{◌≡◌};
ghost use Rattle.std.specs.List.{list_all};
ghost use Rattle.net_model.specs.Forms.{is_name, is_value_name};
ghost use Rattle.blifmv_lines.specs.Said.{texts, listed_names};

use crate::list::ListedNames;
use crate::signs::{
    begins_with, begins_with_arrow, ends_with_backslash, is_closing, is_comma, is_opening,
};

/// Whether the word can be the name of a signal.
pub fn is_name(word: &[u8]) -> bool
    ensures { result ≡ is_name word.now }
{
    !is_comma(word)
        && !is_opening(word)
        && !is_closing(word)
        && !begins_with_arrow(word)
        && !ends_with_backslash(word)
}

/// Whether the word can be the name of a value.
pub fn is_value_name(word: &[u8]) -> bool
    ensures { result ≡ is_value_name word.now }
{
    is_name(word)
        && word != b"-".as_slice()
        && !begins_with(b'.', word)
        && !begins_with(b'!', word)
        && !begins_with(b'=', word)
}

/// Whether each of the words can be the name of a signal.
pub fn are_names(words: &[&[u8]]) -> bool
    ensures { result ≡ list_all is_name (texts words.now) }
{
    let mut left = words;
    while let [word, more @ ..] = left {
        if !is_name(word) {
            return false;
        }
        left = more;
    }
    true
}

/// Whether each of the words can be the name of a value.
pub fn are_value_names(words: &[&[u8]]) -> bool
    ensures { result ≡ list_all is_value_name (texts words.now) }
{
    let mut left = words;
    while let [word, more @ ..] = left {
        if !is_value_name(word) {
            return false;
        }
        left = more;
    }
    true
}

/// Whether each of the names with commas between them can be the name of a signal.
pub fn are_listed_names(words: &[&[u8]]) -> bool
    ensures { result ≡ list_all is_name (listed_names (texts words.now)) }
{
    let mut names = ListedNames::new(words);
    while let Some(name) = names.next_name() {
        if !is_name(name) {
            return false;
        }
    }
    true
}
