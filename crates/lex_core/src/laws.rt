//! Laws of the definitions in `specs`, each a function with an empty body.

ghost use Rattle.std.specs.Prelude.{ℕ, List};
ghost use Rattle.lex_core.specs.InOrder.{WordsStandInOrder, LineNumbersRise};
ghost use Rattle.lex_core.specs.TextWords.{HasTextWords};

/// Each word of a text is the slice of the text at its span, and the spans are in order and disjoint. Each logical
/// line has a word, and the line numbers rise from 1 on.
pub fn lines_are_in_order()
    ensures words { (text : List ℕ) → WordsStandInOrder text }
    ensures numbers { (text : List ℕ) → LineNumbersRise text }
{}

/// Each word of a text is one byte that is a word alone, or some bytes of which none is a blank, such a byte, a line feed
/// or the begin of a comment.
pub fn words_are_of_word_bytes()
    ensures { (text : List ℕ) → HasTextWords text }
{}
