//! Rows and defaults, entry by entry.

ghost use Rattle.std.specs.Prelude.{◌≡◌, false, map, IfOk};
ghost use Rattle.std.specs.Option.{option_map};
ghost use Rattle.net_model.specs.Nets.{entry_of, row_of};
ghost use Rattle.net_model.specs.Spellings.{entries_at, row_spelled, default_spelled};
ghost use Rattle.blifmv_lines.specs.Said.{texts, spelled_said};
ghost use Rattle.blifmv_tables.specs.Reading.{entry_in, AreRead};
ghost use Rattle.blifmv_tables.specs.RowFaults.{is_equality, is_unknown, some_entry, behind_entries, kind_of_outputs, kind_of_row};

use crate::resolve::input_entry;
use crate::side::{Side, entry_in};
use blifmv_lines::{Entries, Spelled};
use name_table::{Names, VarId};
use net_model::{Entry, Row, TextKind};
use std::alloc::{AllocError, Global};

// The row that these words spell under a table with these columns, where they spell one.
pub fn read_row(
    alloc: Global,
    names: &Names,
    ins: &[VarId],
    outs: &[VarId],
    words: &[&[u8]],
) -> Result<Option<Row>, AllocError>
    ensures { IfOk result (λ found. option_map row_of found ≡ row_spelled names.now (map (λ v. v.0) ins.now) (map (λ v. v.0) outs.now) (texts words.now)) }
{
    let mut entries = Entries::new(words);
    let Some(inputs) = read_entries(alloc, names, Side::Input, ins, &mut entries)? else {
        return Ok(None);
    };
    let Some(outputs) = read_entries(alloc, names, Side::Output(ins), outs, &mut entries)? else {
        return Ok(None);
    };
    if !entries.is_empty() {
        return Ok(None);
    }
    Ok(Some(Row {
        ins: inputs,
        outs: outputs,
    }))
}

// The default that these words spell under a table with these columns, where they spell one.
pub fn read_default(
    alloc: Global,
    names: &Names,
    ins: &[VarId],
    outs: &[VarId],
    words: &[&[u8]],
) -> Result<Option<Vec<Entry>>, AllocError>
    ensures { IfOk result (λ found. option_map (λ default. map entry_of default.items) found ≡ default_spelled names.now (map (λ v. v.0) ins.now) (map (λ v. v.0) outs.now) (texts words.now)) }
{
    let mut entries = Entries::new(words);
    let Some(outputs) = read_entries(alloc, names, Side::Output(ins), outs, &mut entries)? else {
        return Ok(None);
    };
    if !entries.is_empty() {
        return Ok(None);
    }
    Ok(Some(outputs))
}

// The entries of these columns, where the words spell them.
fn read_entries(
    alloc: Global,
    names: &Names,
    side: Side<'_>,
    columns: &[VarId],
    entries: &mut Entries<'_, '_>,
) -> Result<Option<Vec<Entry>>, AllocError>
    ensures { IfOk result (λ found. AreRead (entries_at (entry_in names.now side.entry) (map (λ v. v.0) columns.now) entries.old) entries.new (option_map (λ read. map entry_of read.items) found)) }
{
    let mut read = Vec::with_capacity(alloc, columns.len())?;
    for column in columns {
        let Some(spelled) = entries.next_entry() else {
            return Ok(None);
        };
        let Some(entry) = entry_in(alloc, names, side, *column, spelled)? else {
            return Ok(None);
        };
        read.push(entry)?;
    }
    Ok(Some(read))
}

// Which fault a row has that spells no row of these columns, though it has as many entries: an entry that names no value
// of its column, and else one that is equal to no input.
pub fn kind_of_row(
    alloc: Global,
    names: &Names,
    ins: &[VarId],
    outs: &[VarId],
    words: &[&[u8]],
) -> Result<TextKind, AllocError>
    ensures { IfOk result (λ kind. kind ≡ kind_of_row names.now (map (λ v. v.0) ins.now) (map (λ v. v.0) outs.now) (texts words.now)) }
{
    let mut entries = Entries::new(words);
    if some_unknown(alloc, names, false, ins, &mut entries)? {
        return Ok(TextKind::UnknownValue);
    }
    let kind = kind_of_outputs(alloc, names, outs, &mut entries)?;
    Ok(kind)
}

// The same of a default.
pub fn kind_of_default(
    alloc: Global,
    names: &Names,
    outs: &[VarId],
    words: &[&[u8]],
) -> Result<TextKind, AllocError>
    ensures { IfOk result (λ kind. kind ≡ kind_of_outputs names.now (map (λ v. v.0) outs.now) (texts words.now)) }
{
    let mut entries = Entries::new(words);
    let kind = kind_of_outputs(alloc, names, outs, &mut entries)?;
    Ok(kind)
}

fn kind_of_outputs(
    alloc: Global,
    names: &Names,
    outs: &[VarId],
    entries: &mut Entries<'_, '_>,
) -> Result<TextKind, AllocError>
    ensures { IfOk result (λ kind. kind ≡ kind_of_outputs names.now (map (λ v. v.0) outs.now) entries.old) }
{
    if some_unknown(alloc, names, true, outs, entries)? {
        Ok(TextKind::UnknownValue)
    } else {
        Ok(TextKind::EqDomain)
    }
}

// Whether one of the entries of these columns names no value. The entries go on behind those that do.
fn some_unknown(
    alloc: Global,
    names: &Names,
    at_output: bool,
    columns: &[VarId],
    entries: &mut Entries<'_, '_>,
) -> Result<bool, AllocError>
    ensures is { IfOk result (λ is. is ≡ some_entry (is_unknown names.now at_output) (map (λ v. v.0) columns.now) entries.old) }
    ensures behind { IfOk result (λ is. is ≡ false → entries.new ≡ behind_entries (map (λ v. v.0) columns.now) entries.old) }
{
    let mut left = columns;
    while let [column, more @ ..] = left {
        let Some(spelled) = entries.next_entry() else {
            return Ok(false);
        };
        if is_unknown(alloc, names, at_output, *column, spelled)? {
            return Ok(true);
        }
        left = more;
    }
    Ok(false)
}

fn is_unknown(
    alloc: Global,
    names: &Names,
    at_output: bool,
    column: VarId,
    spelled: Spelled<'_, '_>,
) -> Result<bool, AllocError>
    ensures { IfOk result (λ is. is ≡ is_unknown names.now at_output column.0 (spelled_said spelled.entry)) }
{
    if at_output && is_equality(spelled) {
        return Ok(false);
    }
    let entry = input_entry(alloc, names, column, spelled)?;
    Ok(entry.is_none())
}

fn is_equality(spelled: Spelled<'_, '_>) -> bool
    ensures { result ≡ is_equality (spelled_said spelled.entry) }
{
    match spelled {
        Spelled::Same(_) => true,
        _ => false,
    }
}
