//! How the text of a machine begins.

ghost use Rattle.std.specs.Prelude.{◌≡◌, true, false, IfSome, IfNone};
ghost use Rattle.lex_core.specs.LogicalLines.{logical_lines};
ghost use Rattle.net_model.specs.Forms.{words_of};
ghost use Rattle.kiss_reader.specs.KissFaults.{begins_with_directive, begins_machine, first_line};
ghost use Rattle.kiss_reader.specs.Said.{is_machine_word};

use crate::first_word::{directive_of, is_row_word, is_unknown_word};
use lex_core::{Line, Lines};

/// Whether the first word of a text is a directive of KISS2.
pub fn begins_machine(bytes: &[u8]) -> bool
    ensures { result ≡ begins_machine (logical_lines bytes.now) }
{
    line_without_directive(bytes).is_none()
}

/// The line of the first word of a text that doesn't begin with a directive of KISS2, and line 1 where there is no word.
pub(crate) fn line_without_directive(bytes: &[u8]) -> Option<u64>
    ensures none { IfNone result (begins_machine (logical_lines bytes.now) ≡ true) }
    ensures line { IfSome result (λ line. (begins_machine (logical_lines bytes.now) ≡ false) × (line ≡ first_line (logical_lines bytes.now))) }
{
    let mut lines = Lines::new(bytes);
    let Some(line) = lines.next_line() else {
        return Some(1);
    };
    if begins_with_directive(&line) {
        None
    } else {
        Some(line.number())
    }
}

fn begins_with_directive(line: &Line<'_>) -> bool
    ensures { result ≡ begins_with_directive (words_of line.now) }
{
    let Some(word) = line.word(0) else {
        return false;
    };
    is_machine_word(word)
}

fn is_machine_word(word: &[u8]) -> bool
    ensures { result ≡ is_machine_word word.now }
{
    let directive = directive_of(word);
    !(is_unknown_word(directive) || is_row_word(directive))
}
