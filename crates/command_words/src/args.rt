//! The words of the command line.

ghost use Rattle.std.specs.Prelude.{◌≡◌, ◌≤◌, ◌<◌, ◌↔◌, ℕ, List, [], ◌∷◌, ◌++◌, length, slice_index_or, OnOk, OnErr, IsNone, IfSome, map, string_bytes};

use std::alloc::{AllocError, Global};
use std::marker::Model;

/// The words after the program's name. Contracts see them as the list of their bytes.
#[derive(Debug, Drop)]
pub struct Args {
    alloc: Global,
    words: Vec<String>,
}

impl Model for Args {
    ghost use Rattle.std.specs.Prelude.{ℕ, List, map, string_bytes};

    ghost Value = { List (List ℕ) };

    ghost view = { λ args. map (λ word. string_bytes word) args.words.items };
}

impl Args {
    /// No words.
    pub fn new(alloc: Global) -> Args
        ensures { result ≡ [] }
    {
        Args {
            alloc,
            words: Vec::new(alloc),
        }
    }

    /// Adds a word at the end.
    pub fn push(&mut self, word: &str) -> Result<(), AllocError>
        ensures ok { OnOk result (self.new ≡ self.old ++ word.now ∷ []) }
        ensures err { OnErr result (self.new ≡ self.old) }
    {
        let word = String::from_str(self.alloc, word)?;
        self.words.push(word)?;
        Ok(())
    }

    /// How many words there are.
    pub fn len(&self) -> u64
        ensures { result ≡ length self.now }
    {
        self.words.len() as u64
    }

    /// The word at a place, from 0.
    pub fn word(&self, k: u64) -> Option<&str>
        ensures none { IsNone result ↔ (length self.now ≤ k) }
        ensures some { IfSome result (λ word. word.now ≡ slice_index_or self.now k []) }
    {
        if k < self.len() {
            Some(self.words[k as usize].as_str())
        } else {
            None
        }
    }

    /// The words as a slice.
    pub(crate) fn as_slice(&self) -> &[String]
        ensures { map (λ word. string_bytes word) result.now ≡ self.now }
    {
        self.words.as_slice()
    }
}
