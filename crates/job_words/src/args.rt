//! The words of the command line.

ghost use Rattle.std.specs.Prelude.{◌≡◌, ◌≤◌, ◌<◌, ◌↔◌, ℕ, List, [], ◌∷◌, ◌++◌, length, slice_index_or, OnOk, OnErr, IsNone, IfSome, IfNone};
ghost use Rattle.job_words.specs.Words.{solve_words};

use std::alloc::{AllocError, Global};
use std::marker::Model;

/// The words after the program's name. Contracts see them as the list of their bytes.
#[derive(Debug, Drop)]
pub struct Args {
    alloc: Global,
    words: Vec<String>,
}

impl Model for Args {
    ghost use Rattle.std.specs.Prelude.{ℕ, List, map, string_bytes};

    ghost Value = { List (List ℕ) };

    ghost view = { λ args. map (λ word. string_bytes word) args.words.items };
}

/// The open words of a job of `solve`.
#[derive(Clone, Copy, Debug)]
pub(crate) struct SolveForm<'a> {
    pub f: &'a str,
    pub s: &'a str,
    pub ins: &'a str,
    pub outs: &'a str,
}

impl Args {
    /// No words.
    pub fn new(alloc: Global) -> Args
        ensures { result ≡ [] }
    {
        Args {
            alloc,
            words: Vec::new(alloc),
        }
    }

    /// Adds a word at the end.
    pub fn push(&mut self, word: &str) -> Result<(), AllocError>
        ensures ok { OnOk result (self.new ≡ self.old ++ word.now ∷ []) }
        ensures err { OnErr result (self.new ≡ self.old) }
    {
        let word = String::from_str(self.alloc, word)?;
        self.words.push(word)?;
        Ok(())
    }

    /// How many words there are.
    pub fn len(&self) -> u64
        ensures { result ≡ length self.now }
    {
        self.words.len() as u64
    }

    /// The word at a place, from 0.
    pub fn word(&self, k: u64) -> Option<&str>
        ensures none { IsNone result ↔ (length self.now ≤ k) }
        ensures some { IfSome result (λ word. word.now ≡ slice_index_or self.now k []) }
    {
        if k < self.len() {
            Some(self.words[k as usize].as_str())
        } else {
            None
        }
    }

    /// The four words that `solve F S --in INS --out OUTS` leaves open, where the words are of this form.
    pub(crate) fn solve_form(&self) -> Option<SolveForm<'_>>
        ensures some { IfSome result (λ form. self.now ≡ solve_words form.f.now form.s.now form.ins.now form.outs.now) }
        ensures none { IfNone result ((f s ins outs : List ℕ) → self.now ≡ solve_words f s ins outs → ⊥) }
    {
        match self.words.as_slice() {
            [command, f, s, inputs, ins, outputs, outs]
                if command.as_str() == "solve"
                    && inputs.as_str() == "--in"
                    && outputs.as_str() == "--out" => {
                Some(SolveForm {
                    f: f.as_str(),
                    s: s.as_str(),
                    ins: ins.as_str(),
                    outs: outs.as_str(),
                })
            }
            _ => None,
        }
    }
}
