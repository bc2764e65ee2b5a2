//! The words of a line in a buffer.

ghost use Rattle.std.specs.Prelude.{◌≡◌, ◌++◌, OnOk};
ghost use Rattle.std.specs.List.{flat_map};
ghost use Rattle.net_model.specs.Forms.{apart, parted, words_of};
ghost use Rattle.blifmv_lines.specs.Said.{texts, word_texts};

use crate::first_word::{directive_of, parts_arrows};
use crate::signs::begins_with_arrow;
use lex_core::{Line, Words};
use std::alloc::AllocError;

/// Fills the buffer with the words of a line, with the arrows of a table's line apart. What it held before is dropped.
/// After an `Err` it holds some of the words. It grows to the longest line, and takes no memory else.
pub fn fill_words<'a>(words: &mut Vec<&'a [u8]>, line: &Line<'a>) -> Result<(), AllocError>
    ensures { OnOk result (texts words.new.items ≡ apart (words_of line.now)) }
{
    words.clear();
    let mut left = line.words();
    let Some((_, first)) = left.next_word() else {
        return Ok(());
    };
    words.push(first)?;
    if parts_arrows(directive_of(first)) {
        push_parted(words, left)
    } else {
        push_words(words, left)
    }
}

fn push_words<'a>(words: &mut Vec<&'a [u8]>, more: Words<'a>) -> Result<(), AllocError>
    ensures { OnOk result (texts words.new.items ≡ texts words.old.items ++ word_texts more.entry) }
{
    let mut left = more;
    while let Some((_, word)) = left.next_word() {
        words.push(word)?;
    }
    Ok(())
}

fn push_parted<'a>(words: &mut Vec<&'a [u8]>, more: Words<'a>) -> Result<(), AllocError>
    ensures { OnOk result (texts words.new.items ≡ texts words.old.items ++ flat_map parted (word_texts more.entry)) }
{
    let mut left = more;
    while let Some((_, word)) = left.next_word() {
        push_apart(words, word)?;
    }
    Ok(())
}

// Pushes a word, or the arrow at its front and the rest.
fn push_apart<'a>(words: &mut Vec<&'a [u8]>, word: &'a [u8]) -> Result<(), AllocError>
    ensures { OnOk result (texts words.new.items ≡ texts words.old.items ++ parted word.now) }
{
    if begins_with_arrow(word) && word.len() > 2 {
        let (arrow, rest) = word.split_at(2);
        words.push(arrow)?;
        words.push(rest)?;
    } else {
        words.push(word)?;
    }
    Ok(())
}
