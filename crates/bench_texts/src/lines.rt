//! The layer of logical lines: a text with many rows, all of whose lines and words are read.

ghost use Rattle.std.specs.Prelude.{◌≡◌, ◌+◌, ◌*◌, length, sum_by, IfOk, IfSome};
ghost use Rattle.lex_core.specs.LogicalLines.{logical_lines};

use crate::fault::Fault;
use lex_core::{Line, Lines};
use std::alloc::{AllocError, Global};
use std::fmt;

/// What stands above the rows.
const HEAD: &[u8] = b".model rows\n.inputs a b c d\n.outputs e\n.table a b c d -> e\n";

/// A row of the table: a set of values, any value, two values, and the output.
const ROW: &[u8] = b"(0,1) - 1 0 1\n";

/// What stands below the rows.
const TAIL: &[u8] = b".end\n";

/// What was read of a text.
#[derive(Drop)]
pub struct LineCounts {
    pub lines: u64,
    pub words: u64,
    pub bytes: u64,
}

impl fmt::Display for LineCounts {
    fn fmt<W: fmt::Write>(&self, f: &mut fmt::Formatter<W>) -> fmt::Result {
        let lines = self.lines;
        let words = self.words;
        let bytes = self.bytes;
        write!(f, "{lines} lines, {words} words, {bytes} bytes")
    }
}

/// Makes a text with so many rows, and counts its lines and words.
pub fn count_lines(alloc: Global, rows: u32) -> Result<LineCounts, Fault>
    ensures lines { IfOk result (λ counts. counts.lines ≡ rows + 5) }
    ensures words { IfOk result (λ counts. counts.words ≡ 9 * rows + 17) }
    ensures bytes { IfOk result (λ counts. counts.bytes ≡ 14 * rows + 64) }
{
    let text = rows_text(alloc, rows)?;
    let counts = read_text(text.as_slice()).ok_or(Fault::Differs)?;
    let rows = rows as u64;
    if counts.lines != rows + 5 || counts.words != 9 * rows + 17 {
        return Err(Fault::Differs);
    }
    Ok(counts)
}

/// The text of a network with one table of so many rows, over five names.
pub(crate) fn rows_text(alloc: Global, rows: u32) -> Result<Vec<u8>, AllocError>
    ensures { IfOk result (λ text. length text.items ≡ 14 * rows + 64) }
{
    let mut text = Vec::with_capacity(alloc, HEAD.len() + ROW.len() * rows as usize + TAIL.len())?;
    text.extend_from_slice(HEAD)?;
    for _ in 0..rows {
        text.extend_from_slice(ROW)?;
    }
    text.extend_from_slice(TAIL)?;
    Ok(text)
}

// The counts of a text, where they can be told.
fn read_text(text: &[u8]) -> Option<LineCounts>
    ensures lines { IfSome result (λ counts. counts.lines ≡ length (logical_lines text.now)) }
    ensures words { IfSome result (λ counts. counts.words ≡ sum_by (λ line. length line.words) (logical_lines text.now)) }
    ensures bytes { IfSome result (λ counts. counts.bytes ≡ length text.now) }
{
    let mut lines = Lines::new(text);
    let mut counts = LineCounts {
        lines: 0,
        words: 0,
        bytes: text.len() as u64,
    };
    while let Some(line) = lines.next_line() {
        counts.lines = counts.lines.checked_add(1)?;
        counts.words = counts.words.checked_add(words_of(&line)?)?;
    }
    Some(counts)
}

// How many words a line has.
fn words_of(line: &Line<'_>) -> Option<u64>
    ensures { IfSome result (λ count. count ≡ length line.now.words) }
{
    let mut words = line.words();
    let mut count: u64 = 0;
    while let Some(_) = words.next_word() {
        count = count.checked_add(1)?;
    }
    Some(count)
}
