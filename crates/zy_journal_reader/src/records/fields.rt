//! Fields that bytes begin with, each with the bytes after it.
ghost use Rattle.std.specs.Prelude.{◌≡◌, ◌<◌, ◌^◌, ◌∷◌, ◌++◌, IfSome};
ghost use Rattle.std.specs.Int.{to_be_bytes, w32, w64};
ghost use Rattle.mc_calls.specs.Bounds.{IsKey, IsValue};
ghost use Rattle.zy_journal.specs.Journal.{key_text, value_text};
ghost use Rattle.zy_journal_reader.specs.Found.{HasField};

use zy_base::{KEY_LIMIT, VALUE_LIMIT};

// Returns the bytes after this letter, with which a record begins.
pub(crate) fn after(letter: u8, bytes: &[u8]) -> Option<&[u8]>
    ensures value { IfSome result (λ rest. bytes.now ≡ letter ∷ rest.now) }
{
    match bytes.split_first() {
        Some((first, rest)) if *first == letter => Some(rest),
        _ => None,
    }
}

// Returns a number of four bytes.
#[tactic(auto, using(crate::proofs::FoundLemmas::four_found))]
pub(crate) fn four(bytes: &[u8]) -> Option<(u32, &[u8])>
    ensures value { IfSome result (λ found. bytes.now ≡ to_be_bytes w32 found.0 ++ found.1.now) }
    ensures fits { IfSome result (λ found. found.0 < 2 ^ 32) }
{
    let Some((first, rest)) = bytes.split_first_chunk::<4>() else {
        return None;
    };
    Some((u32::from_be_bytes(*first), rest))
}

// Returns a number of eight bytes.
#[tactic(auto, using(crate::proofs::FoundLemmas::eight_found))]
pub(crate) fn eight(bytes: &[u8]) -> Option<(u64, &[u8])>
    ensures value { IfSome result (λ found. bytes.now ≡ to_be_bytes w64 found.0 ++ found.1.now) }
    ensures fits { IfSome result (λ found. found.0 < 2 ^ 64) }
{
    let Some((first, rest)) = bytes.split_first_chunk::<8>() else {
        return None;
    };
    Some((u64::from_be_bytes(*first), rest))
}

// Returns the bytes of a value.
pub(crate) fn contents(bytes: &[u8]) -> Option<(&[u8], &[u8])>
    ensures value { IfSome result (λ found. bytes.now ≡ value_text found.0.now ++ found.1.now) }
    ensures within { IfSome result (λ found. IsValue found.0.now) }
{
    let (size, rest) = four(bytes)?;
    if size > VALUE_LIMIT {
        return None;
    }
    rest.split_at_checked(size as usize)
}

// Returns the bytes of a key, if there is one, and otherwise no bytes.
pub(crate) fn key(has: bool, bytes: &[u8]) -> Option<(&[u8], &[u8])>
    ensures value { IfSome result (λ found.
        HasField key_text IsKey has bytes.now found.0.now found.1.now) }
{
    if !has {
        return Some((&bytes[..0], bytes));
    }
    let (size, rest) = bytes.split_first()?;
    if *size == 0 || *size > KEY_LIMIT {
        return None;
    }
    rest.split_at_checked(usize::from(*size))
}

// Returns flags, if there are some, and otherwise 0.
pub(crate) fn flags(has: bool, bytes: &[u8]) -> Option<(u32, &[u8])>
    ensures value { IfSome result (λ found.
        HasField (to_be_bytes w32) (λ n. n < 2 ^ 32) has bytes.now found.0 found.1.now) }
{
    if !has {
        return Some((0, bytes));
    }
    four(bytes)
}

// Returns a number, if there is one, and otherwise 0.
pub(crate) fn number(has: bool, bytes: &[u8]) -> Option<(u64, &[u8])>
    ensures value { IfSome result (λ found.
        HasField (to_be_bytes w64) (λ n. n < 2 ^ 64) has bytes.now found.0 found.1.now) }
{
    if !has {
        return Some((0, bytes));
    }
    eight(bytes)
}

// Returns the bytes of a value, if there is one, and otherwise no bytes.
pub(crate) fn value(has: bool, bytes: &[u8]) -> Option<(&[u8], &[u8])>
    ensures value { IfSome result (λ found.
        HasField value_text IsValue has bytes.now found.0.now found.1.now) }
{
    if !has {
        return Some((&bytes[..0], bytes));
    }
    contents(bytes)
}
