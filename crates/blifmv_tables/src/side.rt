//! The two sides of a table.

ghost use Rattle.std.specs.Prelude.{◌≡◌, map, IfOk};
ghost use Rattle.std.specs.Option.{option_map};
ghost use Rattle.net_model.specs.Nets.{entry_of};
ghost use Rattle.blifmv_lines.specs.Said.{spelled_said};
ghost use Rattle.blifmv_tables.specs.Reading.{entry_in};

use crate::resolve::{input_entry, output_entry};
use blifmv_lines::Spelled;
use name_table::{Names, VarId};
use net_model::Entry;
use std::alloc::{AllocError, Global};

/// On which side of a table a column stands. An entry of an output may name an input.
#[derive(Clone, Copy)]
pub enum Side<'c> {
    Input,
    Output(&'c [VarId]),
}

// The entry in a column on this side, or none where it can't stand there.
pub fn entry_in(
    alloc: Global,
    names: &Names,
    side: Side<'_>,
    column: VarId,
    spelled: Spelled<'_, '_>,
) -> Result<Option<Entry>, AllocError>
    ensures { IfOk result (λ found. option_map entry_of found ≡ entry_in names.now side.entry column.0 (spelled_said spelled.entry)) }
{
    match side {
        Side::Input => input_entry(alloc, names, column, spelled),
        Side::Output(ins) => output_entry(alloc, names, ins, column, spelled),
    }
}
