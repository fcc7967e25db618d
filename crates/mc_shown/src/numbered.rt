//! The CAS value that the answer to `mg` shows.
ghost use Rattle.std.specs.Prelude.{◌≡◌};

use crate::part::Part;
use mc_allows::Shown;
use mc_answered::line_length;
use mc_parse::Meta;
use zy_base::read_number;

/// Makes what the answer to a meta command shows, with the CAS value in it.
pub(crate) fn numbered_part(meta: &Meta, shown: Shown, text: &[u8]) -> Part
    ensures value { result.shown ≡ shown }
{
    let unique = match meta {
        Meta::Get { .. } => unique_in(text),
        _ => None,
    };
    Part { shown, unique }
}

// Returns the CAS value that the first line of an answer to `mg` shows, if it shows one.
fn unique_in(text: &[u8]) -> Option<u64> {
    let Some(length) = line_length(text) else {
        return None;
    };
    let line = &text[..length];
    for at in 0..line.len() {
        if let Some(rest) = line[at..].strip_prefix(b" c") {
            return number_at(rest);
        }
    }
    None
}

// Returns the number with which the bytes begin, if something follows it.
fn number_at(bytes: &[u8]) -> Option<u64> {
    for end in 0..bytes.len() {
        if !bytes[end].is_ascii_digit() {
            return read_number(&bytes[..end]);
        }
    }
    None
}
