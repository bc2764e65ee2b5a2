//! Writes names, domains and numbers as text.

use name_table::{Domain, Names, ValueName, VarId};
use std::alloc::AllocError;

pub fn put(out: &mut Vec<u8>, text: &str) -> Result<(), AllocError> {
    out.extend_from_slice(text.as_bytes())
}

// The mark, and then the name.
pub fn put_name(out: &mut Vec<u8>, mark: &str, name: Option<&[u8]>) -> Result<(), AllocError> {
    put(out, mark)?;
    match name {
        Some(name) => out.extend_from_slice(name),
        None => put(out, "?"),
    }
}

// The mark, and then the number.
pub fn put_number(out: &mut Vec<u8>, mark: &str, number: u32) -> Result<(), AllocError> {
    put(out, mark)?;
    let text = number.to_string(*out.allocator())?;
    put(out, text.as_str())
}

// The names of the signals, each behind a blank.
pub fn put_signals(out: &mut Vec<u8>, names: &Names, signals: &[VarId]) -> Result<(), AllocError> {
    for &signal in signals {
        put_name(out, " ", names.name(signal))?;
    }
    Ok(())
}

// The names of the values, each with the mark before and the one behind it.
pub fn put_domain(
    out: &mut Vec<u8>,
    before: &str,
    domain: &Domain,
    behind: &str,
) -> Result<(), AllocError> {
    for value in 0..domain.len() {
        put_value(out, before, domain.name(value), behind)?;
    }
    Ok(())
}

fn put_value(
    out: &mut Vec<u8>,
    before: &str,
    name: Option<ValueName<'_>>,
    behind: &str,
) -> Result<(), AllocError> {
    match name {
        Some(name) => put_name(out, before, Some(name.as_slice()))?,
        None => put_name(out, before, None)?,
    }
    put(out, behind)
}
