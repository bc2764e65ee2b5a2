//! Decimal numbers.

ghost use Rattle.std.specs.Prelude.{◌≡◌, ◌-◌, ◌^◌, min, length};
ghost use Rattle.net_model.specs.Forms.{is_digit, is_number, number_of, has_count};
ghost use Rattle.blifmv_lines.specs.Said.{texts};

fn is_digit(byte: u8) -> bool
    ensures { result ≡ is_digit byte }
{
    byte >= b'0' && byte <= b'9'
}

fn is_number(word: &[u8]) -> bool
    ensures { result ≡ is_number word.now }
{
    if word.is_empty() {
        return false;
    }
    let mut left = word;
    while let [byte, more @ ..] = left {
        if !is_digit(*byte) {
            return false;
        }
        left = more;
    }
    true
}

/// The number that decimal digits spell, or 2^64 - 1 where it is larger. There may be any number of digits.
pub fn number_of(word: &[u8]) -> u64
    ensures { result ≡ min (number_of word.now) (2 ^ 64 - 1) }
{
    let mut number: u64 = 0;
    let mut left = word;
    while let [byte, more @ ..] = left {
        let digit = byte.saturating_sub(b'0');
        number = number.saturating_mul(10).saturating_add(u64::from(digit));
        left = more;
    }
    number
}

/// Whether the word is a count from 1 up, and there are no values or just as many.
pub fn has_count(count: &[u8], values: &[&[u8]]) -> bool
    ensures { result ≡ has_count count.now (texts values.now) }
{
    let number = number_of(count);
    is_number(count) && number > 0 && (values.is_empty() || values.len() as u64 == number)
}
