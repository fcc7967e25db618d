//! Numbers in decimal digits.
ghost use Rattle.std.specs.Prelude.{◌≡◌, ◌<◌, ◌≤◌, ◌+◌, ◌*◌, ◌^◌, ◌++◌, length, decimal, IfSome, IfNone, OnOk, OnErr};
ghost use Rattle.zy_base.specs.Number.{number_of};

use crate::blob::Blob;
use crate::outside::NoMemory;
use itoa::Buffer;

/// Reads a number of 1 to 20 digits, if it is below 2^64; leading zeros are allowed.
pub fn read_number(text: &[u8]) -> Option<u64>
    ensures value { result ≡ number_of text.now }
{
    if text.is_empty() || text.len() > 20 {
        return None;
    }
    let mut number = 0;
    for digit in text {
        if !digit.is_ascii_digit() {
            return None;
        }
        match with_digit(number, *digit - b'0') {
            Some(longer) => number = longer,
            None => return None,
        }
    }
    Some(number)
}

// Returns the number with this digit after its own, if it is below 2^64.
fn with_digit(number: u64, digit: u8) -> Option<u64>
    requires { digit < 10 }
    ensures fits { IfSome result (λ longer. longer ≡ number * 10 + digit) }
    ensures large { IfNone result (2 ^ 64 ≤ number * 10 + digit) }
{
    match number.checked_mul(10) {
        Some(tens) => tens.checked_add(digit as u64),
        None => None,
    }
}

/// Appends the number's decimal digits, without padding.
pub fn number_text(out: &mut Blob, number: u64) -> Result<(), NoMemory>
    ensures ok { OnOk result (out.new ≡ out.old ++ decimal number) }
    ensures err { OnErr result (out.new ≡ out.old) }
{
    let mut buffer = Buffer::new();
    out.append(buffer.format(number).as_bytes())
}

/// Returns how many decimal digits a number has.
pub fn digits_of(number: u64) -> usize
    ensures value { result ≡ length (decimal number) }
    ensures limit { result ≤ 20 }
{
    let mut buffer = Buffer::new();
    buffer.format(number).len()
}
