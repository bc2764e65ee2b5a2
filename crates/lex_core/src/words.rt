//! The words of a logical line, read forward.

ghost use Rattle.std.specs.Prelude.{◌≡◌, ◌+◌, ◌<◌, ◌≤◌, ◌^◌, ◌∷◌, [], length, take, drop, IfSome, MatchOption};
ghost use Rattle.lex_core.specs.LogicalLines.{text_word};
ghost use Rattle.lex_core.specs.Tokens.{words_at, part_len};

use crate::sign::{Place, Sign, place_behind, sign_at, text_sign};
use std::marker::Model;

/// Where a word stands in the text: from `start` up to, but not including, `end`, counted in bytes from 0.
#[derive(Clone, Copy, Debug, PartialEq, Eq)]
pub struct Span {
    pub start: usize,
    pub end: usize,
}

/// The words of a logical line that are left. It holds the rest of the whole text: the words stop at the end of the
/// line by themselves.
#[derive(Drop)]
pub struct Words<'a> {
    rest: &'a [u8],
    place: Place,
    start: usize,
}

impl<'a> Model for Words<'a> {
    ghost use Rattle.std.specs.Prelude.{List, length, ◌+◌, ◌<◌, ◌^◌};
    ghost use Rattle.lex_core.specs.LogicalLines.{TextWord};
    ghost use Rattle.lex_core.specs.Tokens.{words_at};

    ghost Value = { List TextWord };

    ghost view = { λ w. words_at w.place w.start w.rest.now };

    ghost invariant = { λ w. w.start + length w.rest.now < 2 ^ 64 };
}

// How many bytes of a longer word stand at the front.
fn part_len(bytes: &[u8]) -> usize
    ensures part { result ≡ part_len bytes.now }
    ensures within { result ≤ length bytes.now }
{
    let mut len: usize = 0;
    let mut left = bytes;
    while let [b, more @ ..] = left {
        match text_sign(*b, more) {
            Sign::Part => len += 1,
            _ => return len,
        }
        left = more;
    }
    len
}

// Cuts the word of so many bytes from the front of what starts here.
fn cut_word(rest: &[u8], start: usize, len: usize) -> (Span, &[u8], &[u8])
    requires within { len ≤ length rest.now }
    requires fits { start + length rest.now < 2 ^ 64 }
    ensures start { result.0.start ≡ start }
    ensures end { result.0.end ≡ start + len }
    ensures word { result.1.now ≡ take len rest.now }
    ensures rest { result.2.now ≡ drop len rest.now }
{
    let (word, more) = rest.split_at(len);
    let span = Span {
        start,
        end: start + len,
    };
    (span, word, more)
}

impl<'a> Words<'a> {
    // The words of the line that begins with these bytes, the first of which is the byte `start` of the text.
    pub(crate) fn at(rest: &'a [u8], start: usize) -> Self
        requires { start + length rest.now < 2 ^ 64 }
        ensures { result ≡ words_at Place.InText start rest.now }
    {
        Words {
            rest,
            place: Place::InText,
            start,
        }
    }

    /// The next word, with its span in the text. After a `None` each further call gives `None`.
    pub fn next_word(&mut self) -> Option<(Span, &'a [u8])>
        ensures word { MatchOption result (self.old ≡ []) (λ r. self.old ≡ text_word r.0.start r.1.now ∷ self.new) }
        ensures end { result ≡ None → self.new ≡ [] }
        ensures span { IfSome result (λ r. r.0.end ≡ r.0.start + length r.1.now) }
    {
        while let [b, more @ ..] = self.rest {
            let sign = sign_at(self.place, *b, more);
            match sign {
                Sign::Part => {
                    let len = part_len(self.rest);
                    let (span, word, left) = cut_word(self.rest, self.start, len);
                    self.start = span.end;
                    self.rest = left;
                    return Some((span, word));
                }
                Sign::Alone => {
                    let (span, word, left) = cut_word(self.rest, self.start, 1);
                    self.start = span.end;
                    self.rest = left;
                    return Some((span, word));
                }
                Sign::End => return None,
                Sign::Gap | Sign::Hash | Sign::Mark | Sign::Join => {
                    self.place = place_behind(self.place, sign);
                    self.start += 1;
                    self.rest = more;
                }
            }
        }
        None
    }
}
