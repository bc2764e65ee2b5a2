//! One logical line: its number and its words.

ghost use Rattle.std.specs.Prelude.{◌≡◌, ◌+◌, ◌<◌, ◌^◌, length, option_map, slice_get, IfSome};
ghost use Rattle.lex_core.specs.LogicalLines.{text_word};
ghost use Rattle.lex_core.specs.Forward.{line_at};
ghost use Rattle.lex_core.specs.Spans.{span_of};

use crate::words::{Span, Words};
use std::marker::Model;

/// A logical line. It holds the rest of the whole text from its first byte on.
#[derive(Drop)]
pub struct Line<'a> {
    rest: &'a [u8],
    start: usize,
    number: u64,
}

impl<'a> Model for Line<'a> {
    ghost use Rattle.std.specs.Prelude.{length, ◌+◌, ◌<◌, ◌^◌};
    ghost use Rattle.lex_core.specs.LogicalLines.{LogicalLine};
    ghost use Rattle.lex_core.specs.Forward.{line_at};

    ghost Value = { LogicalLine };

    ghost view = { λ l. line_at l.number l.start l.rest.now };

    ghost invariant = { λ l. l.start + length l.rest.now < 2 ^ 64 };
}

impl<'a> Line<'a> {
    // The line of this number that begins with these bytes, the first of which is the byte `start` of the text.
    pub(crate) fn at(rest: &'a [u8], start: usize, number: u64) -> Self
        requires { start + length rest.now < 2 ^ 64 }
        ensures { result ≡ line_at number start rest.now }
    {
        Line {
            rest,
            start,
            number,
        }
    }

    /// The number of its first physical line, counted from 1.
    pub fn number(&self) -> u64
        ensures { result ≡ self.now.number }
    {
        self.number
    }

    /// The word number `k`, counted from 0, or `None` where the line has at most `k` words. It is found from the
    /// line's begin on, so a loop over all words is better written with `words`.
    pub fn word(&self, k: usize) -> Option<&'a [u8]>
        ensures { option_map (λ word. word.now) result ≡ option_map (λ word. word.bytes) (slice_get self.now.words k) }
    {
        match self.find_word(k) {
            Some((_, word)) => Some(word),
            None => None,
        }
    }

    /// Where the word number `k` stands, under the same rule as `word`.
    pub fn span(&self, k: usize) -> Option<Span>
        ensures { result ≡ option_map span_of (slice_get self.now.words k) }
    {
        match self.find_word(k) {
            Some((span, _)) => Some(span),
            None => None,
        }
    }

    fn find_word(&self, k: usize) -> Option<(Span, &'a [u8])>
        ensures word { option_map (λ r. text_word r.0.start r.1.now) result ≡ slice_get self.now.words k }
        ensures span { IfSome result (λ r. r.0.end ≡ r.0.start + length r.1.now) }
    {
        let mut words = self.words();
        let mut left = k;
        while let Some(found) = words.next_word() {
            if left == 0 {
                return Some(found);
            }
            left -= 1;
        }
        None
    }

    /// The words from the first one on.
    pub fn words(&self) -> Words<'a>
        ensures { result ≡ self.now.words }
    {
        Words::at(self.rest, self.start)
    }
}
