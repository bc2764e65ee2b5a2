//! The name of a value, which a domain that keeps its names lends.

ghost use Rattle.std.specs.Prelude.{◌≡◌, decimal};

use crate::number::digits_of;
use arrayvec::ArrayString;
use std::marker::Model;

/// The name of a value: lent by the domain that keeps it, or the digits of a value that is named by its number.
#[derive(Drop)]
pub struct ValueName<'a> {
    bytes: Bytes<'a>,
}

#[derive(Drop)]
enum Bytes<'a> {
    Kept(&'a [u8]),
    Number(ArrayString<10>),
}

impl<'a> Model for ValueName<'a> {
    ghost use Rattle.std.specs.Prelude.{ℕ, List};
    ghost use Rattle.name_table.specs.ValueNames.{bytes_told};

    ghost Value = { List ℕ };

    ghost view = { λ n. bytes_told n.bytes };
}

impl<'a> ValueName<'a> {
    pub(crate) fn kept(name: &'a [u8]) -> ValueName<'a>
        ensures { result ≡ name.now }
    {
        ValueName {
            bytes: Bytes::Kept(name),
        }
    }

    pub(crate) fn number(number: u32) -> ValueName<'a>
        ensures { result ≡ decimal number }
    {
        ValueName {
            bytes: Bytes::Number(digits_of(number)),
        }
    }

    /// The bytes of the name.
    pub fn as_slice(&self) -> &[u8]
        ensures { result.now ≡ self.now }
    {
        match &self.bytes {
            Bytes::Kept(name) => name,
            Bytes::Number(digits) => digits.as_str().as_bytes(),
        }
    }
}
