//! The layer of counts: the first pass reads a text that gives each name another count of values.

ghost use Rattle.std.specs.Prelude.{◌≡◌, ◌+◌, ◌*◌, ◌<◌, ◌≤◌, vec_len, IfOk, OnOk};

use crate::domains::{DomainCounts, values_of};
use crate::fault::Fault;
use crate::texts::{push_number, push_variable};
use blifmv_names::read_names;
use std::alloc::{AllocError, Global};

/// The most names of a network.
const MOST_NAMES: u32 = 4_096;

/// Reads a text of so many names, which have 16, 32, 48 values and so on, up to 65,536. Counts the names, and the values
/// of each.
pub fn count_counts(alloc: Global, size: u32) -> Result<DomainCounts, Fault>
    ensures names { IfOk result (λ counts. counts.names ≡ size) }
    ensures values { IfOk result (λ counts. counts.values ≡ 8 * size * (size + 1)) }
{
    if size > MOST_NAMES {
        return Err(Fault::TooManyValues);
    }
    let text = counts_text(alloc, size)?;
    let names = read_names(alloc, text.as_slice())?;
    let counts = DomainCounts {
        names: names.len(),
        values: values_of(&names).ok_or(Fault::Differs)?,
    };
    let wanted = 8 * size as u64 * (size as u64 + 1);
    if counts.names != size || counts.values != wanted {
        return Err(Fault::Differs);
    }
    Ok(counts)
}

// The text of a network with so many signals, each with a line that gives its count.
fn counts_text(alloc: Global, size: u32) -> Result<Vec<u8>, AllocError>
    requires { size ≤ MOST_NAMES }
    ensures { IfOk result (λ text. size ≤ vec_len text) }
{
    let mut text = Vec::new(alloc);
    text.extend_from_slice(b".model counts\n")?;
    for number in 0..size {
        push_count(alloc, &mut text, number)?;
    }
    text.extend_from_slice(b".end\n")?;
    Ok(text)
}

// Puts the line of a signal at the end of a text.
fn push_count(alloc: Global, text: &mut Vec<u8>, number: u32) -> Result<(), AllocError>
    requires { number < MOST_NAMES }
    ensures { OnOk result (vec_len text.old < vec_len text.new) }
{
    text.extend_from_slice(b".mv ")?;
    push_variable(alloc, text, number)?;
    text.push(b' ')?;
    push_number(alloc, text, 16 * (number + 1))?;
    text.push(b'\n')?;
    Ok(())
}
