//! The first line of a shown value.
ghost use Rattle.std.specs.Prelude.{◌≡◌};
ghost use Rattle.mc_answered.specs.Size.{size_in, size_of};

use crate::heading::read_last_number;
use crate::text::{after_front, halve_at, read_decimal};

/// Reads how many bytes the value has that a line of `mg` announces.
pub fn read_size(line: &[u8]) -> Option<u64>
    ensures value { result ≡ size_of line.now }
{
    match after_front(line, b"VA ") {
        Some(text) => read_size_in(text),
        None => None,
    }
}

// Reads the number before the marks, or before the end of the line.
fn read_size_in(text: &[u8]) -> Option<u64>
    ensures value { result ≡ size_in text.now }
{
    match halve_at(text, b' ') {
        Some(halved) => read_decimal(halved.front),
        None => read_last_number(text),
    }
}
