//! Passes a logical line, to find the one behind it.

ghost use Rattle.std.specs.Prelude.{◌≡◌, ◌+◌, ◌<◌, ◌≤◌, ◌^◌, length, None};
ghost use Rattle.lex_core.specs.Tokens.{tokens_from, has_word};
ghost use Rattle.lex_core.specs.Forward.{lines_at, lines_after};

use crate::sign::{Place, Sign, place_behind, sign_at};

/// What lies behind a logical line: the rest of the text, its place, the number of the physical line there. And
/// whether the line had a word.
#[derive(Drop)]
pub struct Passed<'a> {
    pub rest: &'a [u8],
    pub start: usize,
    pub number: u64,
    pub has_word: bool,
}

pub fn pass_line(rest: &[u8], start: usize, number: u64) -> Passed<'_>
    requires some { 0 < length rest.now }
    requires place { start + length rest.now < 2 ^ 64 }
    requires number { number + length rest.now < 2 ^ 64 }
    ensures lines { lines_at result.number result.start result.rest.now
        ≡ lines_after number (tokens_from Place.InText start None rest.now) }
    ensures word { result.has_word ≡ has_word (tokens_from Place.InText start None rest.now) }
    ensures shorter { length result.rest.now < length rest.now }
    ensures place { result.start + length result.rest.now ≤ start + length rest.now }
    ensures number { result.number + length result.rest.now ≤ number + length rest.now }
{
    let mut left = rest;
    let mut at = start;
    let mut now = number;
    let mut place = Place::InText;
    let mut found = false;
    while let [b, more @ ..] = left {
        let sign = sign_at(place, *b, more);
        place = place_behind(place, sign);
        left = more;
        at += 1;
        match sign {
            Sign::Part => found = true,
            Sign::Alone => found = true,
            Sign::Join => now += 1,
            Sign::End => {
                return Passed {
                    rest: left,
                    start: at,
                    number: now + 1,
                    has_word: found,
                };
            }
            Sign::Gap => {}
            Sign::Hash => {}
            Sign::Mark => {}
        }
    }
    Passed {
        rest: left,
        start: at,
        number: now,
        has_word: found,
    }
}
