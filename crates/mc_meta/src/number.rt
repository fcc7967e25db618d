//! The numbers of a line.
ghost use Rattle.std.specs.Prelude.{◌≡◌, ◌<◌, ◌≤◌, ◌+◌, ◌*◌, ◌^◌, IfSome, IfNone};
ghost use Rattle.mc_meta.specs.Number.{number_of, small_number_of};

/// Reads a number of 1 to 20 digits, if it is below 2^64; leading zeros are allowed.
pub(crate) fn read_number(text: &[u8]) -> Option<u64>
    ensures value { result ≡ number_of text.now }
{
    if text.is_empty() || text.len() > 20 {
        return None;
    }
    let mut number = 0;
    for digit in text {
        if !digit.is_ascii_digit() {
            return None;
        }
        match with_digit(number, *digit - b'0') {
            Some(longer) => number = longer,
            None => return None,
        }
    }
    Some(number)
}

// Returns the number with this digit after its own, if it is below 2^64.
fn with_digit(number: u64, digit: u8) -> Option<u64>
    requires { digit < 10 }
    ensures fits { IfSome result (λ longer. longer ≡ number * 10 + digit) }
    ensures large { IfNone result (2 ^ 64 ≤ number * 10 + digit) }
{
    match number.checked_mul(10) {
        Some(tens) => tens.checked_add(digit as u64),
        None => None,
    }
}

/// Reads a number of 1 to 20 digits, if it is below 2^32; leading zeros are allowed.
pub fn read_small_number(word: &[u8]) -> Option<u32>
    ensures value { result ≡ small_number_of word.now }
{
    match read_number(word) {
        Some(number) => u32::try_from(number).ok(),
        None => None,
    }
}
