//! Values that are named by their numbers: a number has its digits, and some digits have their number.

ghost use Rattle.std.specs.Prelude.{◌≡◌, ◌<◌, ◌^◌, ℕ, Some, IsTrue, decimal, ◌↔◌};
ghost use Rattle.name_table.specs.Variables.{place_of, numbers};

use arrayvec::ArrayString;
use itoa::Buffer;

/// The number as a decimal.
pub(crate) fn digits_of(number: u32) -> ArrayString<10>
    ensures { result.bytes ≡ decimal number }
{
    let mut buffer = Buffer::new();
    let mut digits = ArrayString::new();
    digits.push_str(buffer.format(number));
    digits
}

/// The number below the count that is written so.
pub(crate) fn number_named(count: u32, name: &[u8]) -> Option<u32>
    ensures { result ≡ place_of (numbers count) name.now }
{
    let Some(number) = number_read(name) else {
        return None;
    };
    if number >= count {
        return None;
    }
    if is_written(number, name) {
        Some(number)
    } else {
        None
    }
}

/// Whether the number is written so.
pub(crate) fn is_written(number: u32, name: &[u8]) -> bool
    ensures { IsTrue result ↔ (name.now ≡ decimal number) }
{
    digits_of(number).as_str().as_bytes() == name
}

// A number that the name can be read as; it is the one that is written so, where there is one.
fn number_read(name: &[u8]) -> Option<u32>
    ensures { (k : ℕ) → k < 2 ^ 32 → name.now ≡ decimal k → result ≡ Some k }
{
    let Ok(text) = str::from_utf8(name) else {
        return None;
    };
    match text.parse::<u32>() {
        Ok(number) => Some(number),
        Err(_) => None,
    }
}
