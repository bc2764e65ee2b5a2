//! Names with commas between them.

ghost use Rattle.std.specs.Prelude.{◌≡◌, ◌∷◌, [], drop, MatchOption};
ghost use Rattle.blifmv_lines.specs.Said.{texts, listed_names};

use std::marker::Model;

/// The names that are left of words that are names with commas between them.
#[derive(Drop)]
pub struct ListedNames<'w, 'a> {
    left: &'w [&'a [u8]],
}

impl<'w, 'a> Model for ListedNames<'w, 'a> {
    ghost use Rattle.std.specs.Prelude.{ℕ, List};
    ghost use Rattle.blifmv_lines.specs.Said.{texts, listed_names};

    ghost Value = { List (List ℕ) };

    ghost view = { λ names. listed_names (texts names.left.now) };
}

impl<'w, 'a> ListedNames<'w, 'a> {
    /// The names of these words: every second one, from the first on.
    pub fn new(words: &'w [&'a [u8]]) -> Self
        ensures { result ≡ listed_names (texts words.now) }
    {
        ListedNames { left: words }
    }

    /// The next name. After a `None` each further call gives `None`.
    pub fn next_name(&mut self) -> Option<&'a [u8]>
        ensures name { MatchOption result (self.old ≡ []) (λ name. self.old ≡ name.now ∷ self.new) }
        ensures end { result ≡ None → self.new ≡ [] }
    {
        match self.left {
            [] => None,
            [name, rest @ ..] => {
                self.left = behind_comma(rest);
                Some(name)
            }
        }
    }
}

fn behind_comma<'w, 'a>(words: &'w [&'a [u8]]) -> &'w [&'a [u8]]
    ensures { result.now ≡ drop 1 words.now }
{
    match words {
        [] => words,
        [_, more @ ..] => more,
    }
}
