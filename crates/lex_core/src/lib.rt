//! Reads a text line by line and word by word. A logical line is one or more physical lines, joined by a backslash at
//! the end of each but the last. Its words are slices of the text, each with its span. Nothing is copied, no memory is
//! taken, and reading a whole text takes time linear in its length.
#![tactic(auto)]

mod laws;
mod line;
mod lines;
mod passing;
mod sign;
mod words;

pub use laws::{lines_are_in_order, words_are_of_word_bytes};
pub use line::Line;
pub use lines::Lines;
pub use words::{Span, Words};
