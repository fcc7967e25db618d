//! Parts of a text, and numbers.
ghost use Rattle.std.specs.Prelude.{◌≡◌, ◌≤◌, length, drop, option_map, option_copied};
ghost use Rattle.mc_answered.specs.Reading.{after_front, halves_at, leads_zero, decimal_of};
ghost use Rattle.mc_answered.specs.Halved.{halves_seen};

use memchr::memchr;
use zy_base::read_number;

/// A text before and after a byte.
#[derive(Clone, Copy)]
pub(crate) struct Halved<'a> {
    pub(crate) front: &'a [u8],
    pub(crate) rest: &'a [u8],
}

/// Returns the text before and after its first byte of this kind.
pub(crate) fn halve_at(text: &[u8], stop: u8) -> Option<Halved<'_>>
    ensures value { option_map halves_seen result ≡ halves_at stop text.now }
{
    match memchr(stop, text) {
        Some(at) => Some(Halved {
            front: &text[..at],
            rest: text_from(text, at + 1),
        }),
        None => None,
    }
}

/// Returns the text from a place on.
pub fn text_from(text: &[u8], from: usize) -> &[u8]
    requires within { from ≤ length text.now }
    ensures value { result.now ≡ drop from text.now }
{
    let (_, rest) = text.split_at(from);
    rest
}

/// Returns the text after this front, if it begins with it.
pub(crate) fn after_front<'a>(text: &'a [u8], front: &[u8]) -> Option<&'a [u8]>
    ensures value { option_copied result ≡ after_front front.now text.now }
{
    text.strip_prefix(front)
}

/// Returns the number that a text is, without leading zeros.
pub(crate) fn read_decimal(text: &[u8]) -> Option<u64>
    ensures value { result ≡ decimal_of text.now }
{
    if leads_zero(text) {
        return None;
    }
    read_number(text)
}

// Checks whether there is more than one byte, and the first is a zero.
fn leads_zero(text: &[u8]) -> bool
    ensures value { result ≡ leads_zero text.now }
{
    match text {
        [first, _, ..] => *first == b'0',
        _ => false,
    }
}
