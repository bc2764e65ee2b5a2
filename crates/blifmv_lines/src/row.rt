//! The entries of a row, one after another.

ghost use Rattle.std.specs.Prelude.{◌≡◌, ◌==◌, length, None};
ghost use Rattle.std.specs.Option.{option_map};
ghost use Rattle.net_model.specs.Spellings.{entry_at, spells};
ghost use Rattle.blifmv_lines.specs.Said.{texts, entry_taken};

use crate::entry::{Spelled, entry_at};
use std::marker::Model;

/// The words of a row that are left, from which one entry after another is read.
#[derive(Drop)]
pub struct Entries<'w, 'a> {
    left: &'w [&'a [u8]],
}

impl<'w, 'a> Model for Entries<'w, 'a> {
    ghost use Rattle.std.specs.Prelude.{ℕ, List};
    ghost use Rattle.blifmv_lines.specs.Said.{texts};

    ghost Value = { List (List ℕ) };

    ghost view = { λ entries. texts entries.left.now };
}

impl<'w, 'a> Entries<'w, 'a> {
    /// All entries of these words.
    pub fn new(words: &'w [&'a [u8]]) -> Self
        ensures { result ≡ texts words.now }
    {
        Entries { left: words }
    }

    /// The next entry, or `None` where the words that are left spell none. They then stay as they are.
    pub fn next_entry(&mut self) -> Option<Spelled<'w, 'a>>
        ensures entry { option_map (entry_taken self.new) result ≡ entry_at self.old }
        ensures none { result ≡ None → self.new ≡ self.old }
    {
        let taken = entry_at(self.left)?;
        self.left = taken.behind();
        Some(taken.entry)
    }

    /// Whether no word is left.
    pub fn is_empty(&self) -> bool
        ensures { result ≡ (length self.now == 0) }
    {
        self.left.is_empty()
    }
}

/// Whether the words spell just so many entries.
pub fn spells(width: usize, words: &[&[u8]]) -> bool
    ensures { result ≡ spells width (texts words.now) }
{
    let mut missing = width;
    let mut entries = Entries::new(words);
    while missing > 0 {
        if entries.next_entry().is_none() {
            return false;
        }
        missing -= 1;
    }
    entries.is_empty()
}
