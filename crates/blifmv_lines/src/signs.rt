//! Words that are signs of their own, and the first and last bytes of words.

ghost use Rattle.std.specs.Prelude.{◌≡◌};
ghost use Rattle.std.specs.List.{list_any};
ghost use Rattle.net_model.specs.Forms.{is_comma, is_opening, is_closing, is_arrow, is_mark, begins_with, begins_with_arrow, ends_with_backslash};
ghost use Rattle.net_model.specs.Spellings.{is_denial, is_list_sign};
ghost use Rattle.blifmv_lines.specs.Said.{texts};

pub fn is_comma(word: &[u8]) -> bool
    ensures { result ≡ is_comma word.now }
{
    word == b",".as_slice()
}

pub fn is_opening(word: &[u8]) -> bool
    ensures { result ≡ is_opening word.now }
{
    word == b"(".as_slice()
}

pub fn is_closing(word: &[u8]) -> bool
    ensures { result ≡ is_closing word.now }
{
    word == b")".as_slice()
}

pub fn is_arrow(word: &[u8]) -> bool
    ensures { result ≡ is_arrow word.now }
{
    word == b"->".as_slice()
}

pub fn is_mark(word: &[u8]) -> bool
    ensures { result ≡ is_mark word.now }
{
    is_comma(word) || is_opening(word) || is_closing(word) || is_arrow(word)
}

/// Whether one of the words is a sign of its own.
pub fn has_mark(words: &[&[u8]]) -> bool
    ensures { result ≡ list_any is_mark (texts words.now) }
{
    let mut left = words;
    while let [word, more @ ..] = left {
        if is_mark(word) {
            return true;
        }
        left = more;
    }
    false
}

/// Whether the word is the sign before a list of the values that are not meant.
pub fn is_denial(word: &[u8]) -> bool
    ensures { result ≡ is_denial word.now }
{
    word == b"!".as_slice()
}

/// Whether the word can't stand for a value in a list.
pub fn is_list_sign(word: &[u8]) -> bool
    ensures { result ≡ is_list_sign word.now }
{
    is_comma(word) || is_opening(word) || is_closing(word) || is_denial(word)
}

pub fn begins_with(byte: u8, word: &[u8]) -> bool
    ensures { result ≡ begins_with byte word.now }
{
    match word {
        [] => false,
        [first, ..] => *first == byte,
    }
}

pub fn begins_with_arrow(word: &[u8]) -> bool
    ensures { result ≡ begins_with_arrow word.now }
{
    if word.len() < 2 {
        return false;
    }
    let (front, _) = word.split_at(2);
    is_arrow(front)
}

pub fn ends_with_backslash(word: &[u8]) -> bool
    ensures { result ≡ ends_with_backslash word.now }
{
    match word {
        [] => false,
        [.., last] => *last == b'\\',
    }
}
