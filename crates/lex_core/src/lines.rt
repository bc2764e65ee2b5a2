//! The logical lines of a text, read forward.

ghost use Rattle.std.specs.Prelude.{◌≡◌, ◌∷◌, [], MatchOption};
ghost use Rattle.lex_core.specs.LogicalLines.{logical_lines};

use crate::line::Line;
use crate::passing::pass_line;
use std::marker::Model;

/// The logical lines of a text that are left.
#[derive(Drop)]
pub struct Lines<'a> {
    rest: &'a [u8],
    start: usize,
    number: u64,
}

impl<'a> Model for Lines<'a> {
    ghost use Rattle.std.specs.Prelude.{List, length, ◌+◌, ◌<◌, ◌^◌};
    ghost use Rattle.lex_core.specs.LogicalLines.{LogicalLine};
    ghost use Rattle.lex_core.specs.Forward.{lines_at};

    ghost Value = { List LogicalLine };

    ghost view = { λ l. lines_at l.number l.start l.rest.now };

    ghost invariant = { λ l. (l.start + length l.rest.now < 2 ^ 64) × (l.number + length l.rest.now < 2 ^ 64) };
}

impl<'a> Lines<'a> {
    /// The logical lines of a text, from its first byte on.
    pub fn new(bytes: &'a [u8]) -> Self
        ensures { result ≡ logical_lines bytes.now }
    {
        Lines {
            rest: bytes,
            start: 0,
            number: 1,
        }
    }

    /// The next logical line that has a word. After a `None` each further call gives `None`.
    pub fn next_line(&mut self) -> Option<Line<'a>>
        ensures line { MatchOption result (self.old ≡ []) (λ line. self.old ≡ line ∷ self.new) }
        ensures end { result ≡ None → self.new ≡ [] }
    {
        while !self.rest.is_empty() {
            let line = Line::at(self.rest, self.start, self.number);
            let passed = pass_line(self.rest, self.start, self.number);
            self.rest = passed.rest;
            self.start = passed.start;
            self.number = passed.number;
            if passed.has_word {
                return Some(line);
            }
        }
        None
    }
}
