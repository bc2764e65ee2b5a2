//! The words of a line in a buffer.

ghost use Rattle.std.specs.Prelude.{◌≡◌, OnOk};
ghost use Rattle.net_model.specs.Forms.{words_of};
ghost use Rattle.blifmv_lines.specs.Said.{texts};

use lex_core::Line;
use std::alloc::AllocError;

/// Fills the buffer with the words of a line. What it held before is dropped. It grows to the longest line, and takes no
/// memory else.
pub(crate) fn fill<'a>(words: &mut Vec<&'a [u8]>, line: &Line<'a>) -> Result<(), AllocError>
    ensures { OnOk result (texts words.new.items ≡ words_of line.now) }
{
    words.clear();
    let mut left = line.words();
    while let Some((_, word)) = left.next_word() {
        words.push(word)?;
    }
    Ok(())
}
