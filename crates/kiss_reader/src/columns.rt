//! The columns of a machine.

ghost use Rattle.std.specs.Prelude.{◌≡◌, ◌∷◌, ◌++◌, [], true, decimal, unwrap_or, IfOk};
ghost use Rattle.std.specs.Option.{option_map};
ghost use Rattle.name_table.specs.ScopeVars.{variable_of, variables_of};
ghost use Rattle.name_table.specs.Variables.{names_of, are_different, numbers};
ghost use Rattle.net_model.specs.KissTexts.{numbered_names, columns_named};
ghost use Rattle.blifmv_lines.specs.Said.{texts};
ghost use Rattle.kiss_reader.specs.Columns.{IsJoined};

use name_table::{Domain, NameSet, ScopeVar};
use std::alloc::{AllocError, Global};

/// The columns of these names. Without names there are so many, and their names are this byte with the numbers from 0 up.
pub(crate) fn columns_of(
    alloc: Global,
    given: &Option<Vec<&[u8]>>,
    front: u8,
    count: u64,
) -> Result<Vec<ScopeVar>, AllocError>
    ensures { IfOk result (λ columns. variables_of columns.items
        ≡ columns_named (unwrap_or (option_map (λ names. texts names.items) given.now) (numbered_names (front ∷ []) count))) }
{
    match given {
        Some(names) => named_columns(alloc, names.as_slice()),
        None => numbered_columns(alloc, front, count),
    }
}

fn named_columns(alloc: Global, names: &[&[u8]]) -> Result<Vec<ScopeVar>, AllocError>
    ensures { IfOk result (λ columns. variables_of columns.items ≡ columns_named (texts names.now)) }
{
    let mut columns = Vec::new(alloc);
    let mut left = names;
    while let [name, more @ ..] = left {
        columns.push(column(alloc, name.to_vec(alloc)?)?)?;
        left = more;
    }
    Ok(columns)
}

fn numbered_columns(alloc: Global, front: u8, count: u64) -> Result<Vec<ScopeVar>, AllocError>
    ensures { IfOk result (λ columns. variables_of columns.items ≡ columns_named (numbered_names (front ∷ []) count)) }
{
    let mut columns = Vec::new(alloc);
    for number in 0..count {
        columns.push(column(alloc, numbered_name(alloc, front, number)?)?)?;
    }
    Ok(columns)
}

// The byte with the number in decimal.
fn numbered_name(alloc: Global, front: u8, number: u64) -> Result<Vec<u8>, AllocError>
    ensures { IfOk result (λ name. name.items ≡ front ∷ decimal number) }
{
    let digits = format!(in alloc; "{number}")?;
    let mut name = Vec::new(alloc);
    name.push(front)?;
    name.extend_from_slice(digits.as_bytes())?;
    Ok(name)
}

// A column of this name, with the values 0 and 1.
fn column(alloc: Global, name: Vec<u8>) -> Result<ScopeVar, AllocError>
    ensures { IfOk result (λ column. variable_of column ≡ record { name = name.items; values = numbers 2 }) }
{
    match Domain::numbered(alloc, 2) {
        Ok(domain) => Ok(ScopeVar { name, domain }),
        Err(_) => Err(AllocError),
    }
}

/// Whether no two of the columns have one name.
pub(crate) fn are_different(
    alloc: Global,
    inputs: &[ScopeVar],
    outputs: &[ScopeVar],
) -> Result<bool, AllocError>
    ensures { IfOk result (λ different. different ≡ are_different (names_of (variables_of inputs.now) ++ names_of (variables_of outputs.now))) }
{
    let mut names = NameSet::new(alloc);
    if !join(alloc, &mut names, inputs)? {
        return Ok(false);
    }
    let different = join(alloc, &mut names, outputs)?;
    Ok(different)
}

// Puts the names of columns behind the others, and says whether all are new. It stops at one that isn't.
fn join(alloc: Global, names: &mut NameSet, columns: &[ScopeVar]) -> Result<bool, AllocError>
    requires { are_different names.old ≡ true }
    ensures { IfOk result (λ new. IsJoined names.old (names_of (variables_of columns.now)) names.new new) }
{
    let mut left = columns;
    while let [column, more @ ..] = left {
        if !add_new(alloc, names, column.name.as_slice())? {
            return Ok(false);
        }
        left = more;
    }
    Ok(true)
}

// Puts the name behind the others, and says whether it is new.
fn add_new(alloc: Global, names: &mut NameSet, name: &[u8]) -> Result<bool, AllocError>
    requires { are_different names.old ≡ true }
    ensures { IfOk result (λ new. IsJoined names.old (name.now ∷ []) names.new new) }
{
    let new = names.add(name.to_vec(alloc)?)?;
    Ok(new)
}
