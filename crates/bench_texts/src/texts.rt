//! What the layers of networks' texts share: names and numbers in a text, and the reading of a text.

ghost use Rattle.std.specs.Prelude.{◌≡◌, ◌+◌, ◌<◌, ◌≤◌, min, vec_len, IfOk, OnOk};
ghost use Rattle.net_model.specs.NetTexts.{text_in, net_said};
ghost use Rattle.net_model.specs.Nets.{net_of};

use crate::names::name_of;
use blifmv_names::read_names;
use blifmv_tables::read_tables;
use net_model::{Net, TextFault};
use std::alloc::{AllocError, Global};

/// The network of a text.
pub(crate) fn read_network(alloc: Global, text: &[u8]) -> Result<Net, TextFault>
    ensures { IfOk result (λ net. net_of net ≡ net_said (text_in text.now)) }
{
    let names = read_names(alloc, text)?;
    let net = read_tables(alloc, text, names)?;
    Ok(net)
}

/// Puts so many names at the end of a text, with this byte between them.
pub(crate) fn push_names(
    alloc: Global,
    text: &mut Vec<u8>,
    size: u32,
    between: u8,
) -> Result<(), AllocError>
    ensures { OnOk result (vec_len text.old + size ≤ vec_len text.new) }
{
    for number in 0..size {
        if number > 0 {
            text.push(between)?;
        }
        push_variable(alloc, text, number)?;
    }
    Ok(())
}

/// Puts the name of a variable at the end of a text.
pub(crate) fn push_variable(
    alloc: Global,
    text: &mut Vec<u8>,
    number: u32,
) -> Result<(), AllocError>
    ensures { OnOk result (vec_len text.old < vec_len text.new) }
{
    let name = name_of(alloc, number)?;
    text.extend_from_slice(name.as_bytes())
}

/// Puts a number at the end of a text.
pub fn push_number(alloc: Global, text: &mut Vec<u8>, number: u32) -> Result<(), AllocError>
    ensures { OnOk result (vec_len text.old ≤ vec_len text.new) }
{
    let digits = number.to_string(alloc)?;
    text.extend_from_slice(digits.as_bytes())
}

/// A size, up to a bound.
pub(crate) fn up_to(size: u32, most: u32) -> u32
    ensures least { result ≡ min size most }
    ensures few { result ≤ most }
{
    if size <= most { size } else { most }
}
