//! The layer of names: a table of names that share one numbered domain, each looked up again, and each value too.

ghost use Rattle.std.specs.Prelude.{◌≡◌, ◌*◌, ◌++◌, ◌≤◌, length, codes, decimal, string_bytes, IfOk};

use crate::fault::Fault;
use name_table::{Domain, NameFault, Names, VarId};
use std::alloc::{AllocError, Global};
use std::fmt;

/// The most names of a table.
const MOST_NAMES: u32 = 4_096;

/// What was found in a table of names.
#[derive(Drop)]
pub struct NameCounts {
    pub names: u32,
    pub values: u32,
}

impl fmt::Display for NameCounts {
    fn fmt<W: fmt::Write>(&self, f: &mut fmt::Formatter<W>) -> fmt::Result {
        let names = self.names;
        let values = self.values;
        write!(f, "{names} names found, {values} values found")
    }
}

/// Makes a table of so many names, which share one domain of 16 values a name, and counts the names and values that are found in it.
pub fn count_names(alloc: Global, size: u32) -> Result<NameCounts, Fault>
    ensures names { IfOk result (λ counts. counts.names ≡ size) }
    ensures values { IfOk result (λ counts. counts.values ≡ 16 * size) }
{
    if size > MOST_NAMES {
        return Err(Fault::Name(NameFault::TooManyVars));
    }
    let values = values_for(size);
    let domain = Domain::numbered(alloc, values)?;
    let names = table_of(alloc, size, &domain)?;
    let counts = NameCounts {
        names: found_names(alloc, &names, size)?,
        values: found_values(alloc, &domain)?,
    };
    if counts.names != size || counts.values != values {
        return Err(Fault::Differs);
    }
    Ok(counts)
}

// How many values the shared domain of so many names has.
fn values_for(names: u32) -> u32
    requires { names ≤ MOST_NAMES }
    ensures { result ≡ 16 * names }
{
    16 * names
}

/// The name of a variable.
pub(crate) fn name_of(alloc: Global, number: u32) -> Result<String, AllocError>
    ensures { IfOk result (λ name. string_bytes name ≡ codes "x" ++ decimal number) }
{
    format!(in alloc; "x{number}")
}

// A table of so many names with one domain.
fn table_of(alloc: Global, size: u32, domain: &Domain) -> Result<Names, Fault>
    ensures { IfOk result (λ names. length names ≡ size) }
{
    let mut names = Names::new(alloc);
    for number in 0..size {
        let name = name_of(alloc, number)?;
        let var = names.add(name.as_bytes(), domain.clone()?)?;
        if var != VarId(number) {
            return Err(Fault::Differs);
        }
    }
    Ok(names)
}

// How many of the names have the number under which they were added.
fn found_names(alloc: Global, names: &Names, size: u32) -> Result<u32, AllocError>
    ensures { IfOk result (λ found. found ≤ size) }
{
    let mut found = 0;
    for number in 0..size {
        let name = name_of(alloc, number)?;
        if names.find(name.as_bytes()) == Some(VarId(number)) {
            found += 1;
        }
    }
    Ok(found)
}

// How many of the values are found by their names.
fn found_values(alloc: Global, domain: &Domain) -> Result<u32, AllocError>
    ensures { IfOk result (λ found. found ≤ length domain.now) }
{
    let mut found = 0;
    for value in 0..domain.len() {
        let name = value.to_string(alloc)?;
        if domain.value_index(name.as_bytes()) == Some(value) {
            found += 1;
        }
    }
    Ok(found)
}
