//! The entries of rows, as they are spelled in the domains of their columns.

ghost use Rattle.std.specs.Prelude.{◌≡◌, ◌<◌, length, map, nat_eq, position, Some, IfOk, IfSome};
ghost use Rattle.std.specs.Option.{option_map};
ghost use Rattle.name_table.specs.Variables.{names_of, place_of};
ghost use Rattle.net_model.specs.Nets.{entry_of};
ghost use Rattle.net_model.specs.Spellings.{domain_at, values_of, input_entry, output_entry, equal_to, column_of};
ghost use Rattle.blifmv_lines.specs.Said.{texts, listed_names, spelled_said};

use crate::lookup::{size_of, value_of};
use blifmv_lines::{ListedNames, Spelled};
use name_table::{Names, VarId};
use net_model::Entry;
use std::alloc::{AllocError, Global};

// The entry in an input column, or none where the column has no such values.
pub fn input_entry(
    alloc: Global,
    names: &Names,
    column: VarId,
    spelled: Spelled<'_, '_>,
) -> Result<Option<Entry>, AllocError>
    ensures { IfOk result (λ found. option_map entry_of found ≡ input_entry (domain_at names.now column.0) (spelled_said spelled.entry)) }
{
    match spelled {
        Spelled::Dash => Ok(Some(Entry::Any)),
        Spelled::One(name) => match value_of(names, column, name) {
            Some(value) => Ok(Some(Entry::Value(value))),
            None => Ok(None),
        },
        Spelled::Listed(list) => match values_of(alloc, names, column, list)? {
            Some(values) => Ok(Some(Entry::OneOf(values))),
            None => Ok(None),
        },
        Spelled::NotThis(name) => match value_of(names, column, name) {
            Some(value) => {
                let values = Vec::from_slice(alloc, &[value])?;
                Ok(Some(Entry::NotOneOf(values)))
            }
            None => Ok(None),
        },
        Spelled::NotListed(list) => match values_of(alloc, names, column, list)? {
            Some(values) => Ok(Some(Entry::NotOneOf(values))),
            None => Ok(None),
        },
        Spelled::Same(_) => Ok(None),
    }
}

// The entry in an output column or a default, of a table with these inputs.
pub fn output_entry(
    alloc: Global,
    names: &Names,
    ins: &[VarId],
    column: VarId,
    spelled: Spelled<'_, '_>,
) -> Result<Option<Entry>, AllocError>
    ensures { IfOk result (λ found. option_map entry_of found ≡ output_entry names.now (map (λ v. v.0) ins.now) (domain_at names.now column.0) (spelled_said spelled.entry)) }
{
    match spelled {
        Spelled::Same(name) => equal_to(names, ins, column, name),
        Spelled::Dash => input_entry(alloc, names, column, spelled),
        Spelled::One(_) => input_entry(alloc, names, column, spelled),
        Spelled::Listed(_) => input_entry(alloc, names, column, spelled),
        Spelled::NotThis(_) => input_entry(alloc, names, column, spelled),
        Spelled::NotListed(_) => input_entry(alloc, names, column, spelled),
    }
}

// The value of an input column, which has as many values.
fn equal_to(
    names: &Names,
    ins: &[VarId],
    column: VarId,
    name: &[u8],
) -> Result<Option<Entry>, AllocError>
    ensures { IfOk result (λ found. option_map entry_of found ≡ equal_to names.now (map (λ v. v.0) ins.now) (domain_at names.now column.0) (column_of (map (λ v. v.0) ins.now) (place_of (names_of names.now) name.now))) }
{
    let Some(signal) = names.find(name) else {
        return Ok(None);
    };
    match column_of(ins, signal) {
        Some(place) => equal_at(names, ins, column, place),
        None => Ok(None),
    }
}

// The value of the input column at this place, where it has as many values as this one.
fn equal_at(
    names: &Names,
    ins: &[VarId],
    column: VarId,
    place: usize,
) -> Result<Option<Entry>, AllocError>
    requires { place < length ins.now }
    ensures { IfOk result (λ found. option_map entry_of found ≡ equal_to names.now (map (λ v. v.0) ins.now) (domain_at names.now column.0) (Some place)) }
{
    if size_of(names, ins[place]) != size_of(names, column) {
        return Ok(None);
    }
    match u32::try_from(place) {
        Ok(place) => Ok(Some(Entry::Equal(place))),
        Err(_) => Err(AllocError),
    }
}

// The first column that this signal is.
fn column_of(ins: &[VarId], signal: VarId) -> Option<usize>
    ensures place { result ≡ position (λ column. nat_eq signal.0 column.0) ins.now }
    ensures within { IfSome result (λ place. place < length ins.now) }
{
    ins.iter().position(|column| signal.0 == column.0)
}

// The values of a list of names, or none where the column doesn't have them all.
fn values_of(
    alloc: Global,
    names: &Names,
    column: VarId,
    list: &[&[u8]],
) -> Result<Option<Vec<u32>>, AllocError>
    ensures { IfOk result (λ found. option_map (λ values. values.items) found ≡ values_of (domain_at names.now column.0) (listed_names (texts list.now))) }
{
    let mut values = Vec::new(alloc);
    let mut left = ListedNames::new(list);
    while let Some(name) = left.next_name() {
        let Some(value) = value_of(names, column, name) else {
            return Ok(None);
        };
        values.push(value)?;
    }
    Ok(Some(values))
}
