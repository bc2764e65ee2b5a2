//! The second pass over the text of a network.

ghost use Rattle.std.specs.Prelude.{◌≡◌, None, true, IfOk, OnOk};
ghost use Rattle.net_model.specs.Faults.{Finds};
ghost use Rattle.net_model.specs.Forms.{shape_of};
ghost use Rattle.net_model.specs.Nets.{net_of};
ghost use Rattle.net_model.specs.NetTexts.{text_in, net_with, rows_stand};
ghost use Rattle.blifmv_lines.specs.Said.{texts};
ghost use Rattle.blifmv_tables.specs.Drafts.{nothing_said, draft_from, open_of, latches_fit};
ghost use Rattle.blifmv_tables.specs.RowFaults.{fault_at, kind_said, row_fault};
ghost use Rattle.blifmv_tables.specs.Saying.{draft_of, draft_by, stands_by, fits_by};

use crate::draft::Draft;
use blifmv_lines::{fill_words, form_of};
use lex_core::Lines;
use name_table::Names;
use net_model::{Net, TextFault};
use std::alloc::Global;

/// The network of a text with these names, which the first pass gives. A row or default that names no value of its column
/// is refused as `UnknownValue`, one that is equal to no input with as many values as `EqDomain`, and so is a latch of two
/// signals with different numbers of values; the first such line is told. Lines without the form of their directive,
/// which the first pass refuses, say nothing.
pub fn read_tables(alloc: Global, bytes: &[u8], names: Names) -> Result<Net, TextFault>
    ensures fault { Finds result (row_fault names bytes.now) }
    ensures rows { OnOk result (rows_stand names None (text_in bytes.now) ≡ true) }
    ensures latches { OnOk result (latches_fit names (text_in bytes.now) ≡ true) }
    ensures net { IfOk result (λ net. net_of net ≡ net_with names (text_in bytes.now)) }
{
    let draft = read_draft(alloc, bytes, &names)?;
    let net = draft.finished(alloc, names)?;
    Ok(net)
}

fn read_draft(alloc: Global, bytes: &[u8], names: &Names) -> Result<Draft, TextFault>
    ensures fault { Finds result (row_fault names.now bytes.now) }
    ensures rows { OnOk result (rows_stand names.now None (text_in bytes.now) ≡ true) }
    ensures latches { OnOk result (latches_fit names.now (text_in bytes.now) ≡ true) }
    ensures draft { IfOk result (λ draft. draft_of draft ≡ draft_from names.now nothing_said (text_in bytes.now)) }
{
    let mut words = Vec::new(alloc);
    let mut lines = Lines::new(bytes);
    let mut draft = Draft::new(alloc);
    while let Some(line) = lines.next_line() {
        fill_words(&mut words, &line)?;
        draft = with_words(draft, alloc, names, line.number(), words.as_slice())?;
    }
    Ok(draft)
}

// With a line of these words.
fn with_words(
    draft: Draft,
    alloc: Global,
    names: &Names,
    line: u64,
    words: &[&[u8]],
) -> Result<Draft, TextFault>
    ensures said { IfOk result (λ next. draft_of next ≡ draft_by names.now (draft_of draft) (shape_of (texts words.now))) }
    ensures stands { OnOk result (stands_by names.now (draft_of draft) (shape_of (texts words.now)) ≡ true) }
    ensures fits { OnOk result (fits_by names.now (shape_of (texts words.now)) ≡ true) }
    ensures told { Finds result (fault_at line (kind_said names.now (open_of (draft_of draft).standing) (shape_of (texts words.now)))) }
{
    match form_of(words) {
        Some(form) => draft.with_line(alloc, names, line, form),
        None => Ok(draft),
    }
}
