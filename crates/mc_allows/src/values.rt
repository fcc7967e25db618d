//! The numbers that may be read of a value.
ghost use Rattle.std.specs.Prelude.{◌≡◌};
ghost use Rattle.mc_allows.specs.Values as Values;

use zy_base::read_number;

/// Returns the number of 1 to 20 digits below 2^64, which spaces may follow.
pub fn padded_number(value: &[u8]) -> Option<u64>
    ensures value { result ≡ Values.padded_number value.now }
{
    read_number(unpadded(value))
}

// Returns the bytes without the spaces at their end.
fn unpadded(value: &[u8]) -> &[u8]
    ensures value { result.now ≡ Values.unpadded value.now }
{
    let mut end = value.len();
    while end > 0 && value[end - 1] == b' ' {
        end -= 1;
    }
    &value[..end]
}

// Checks whether some byte is a digit or white space.
fn has_digit_or_white(value: &[u8]) -> bool
    ensures value { result ≡ Values.has_digit_or_white value.now }
{
    for byte in value {
        if is_digit_or_white(*byte) {
            return true;
        }
    }
    false
}

// Checks whether a byte is a digit or white space.
fn is_digit_or_white(byte: u8) -> bool
    ensures value { result ≡ Values.is_digit_or_white byte }
{
    (b'0' <= byte && byte <= b'9') || byte == b' ' || (9 <= byte && byte <= 13)
}

/// Checks whether a server may read a value as this number.
pub fn may_read(value: &[u8], number: u64) -> bool
    ensures value { result ≡ Values.may_read value.now number }
{
    match padded_number(value) {
        Some(own) => own == number,
        None => has_digit_or_white(value),
    }
}
