//! The marks of the answer to a meta command.
ghost use Rattle.std.specs.Prelude.{◌≡◌, ◌≤◌, ◌+◌, ◌++◌, length, decimal, IfSome};
ghost use Rattle.mc_reply.specs.MetaText.{item_mark, mark_text, marks_text};

use zy_base::{Reserved, digits_of};

/// What marks show of an item.
#[derive(Clone, Copy)]
pub(crate) struct Found {
    pub(crate) flags: u32,
    pub(crate) unique: u64,
    /// The number of bytes of its value.
    pub(crate) bytes: usize,
}

/// Returns the number of bytes in the marks of letters; `None` if it does not fit in a `usize`.
pub(crate) fn marks_length(key: &[u8], found: Option<Found>, letters: &[u8]) -> Option<usize>
    ensures value { IfSome result (λ n. n ≡ length (marks_text key.now found letters.now)) }
{
    let mut total = 0usize;
    for at in 0..letters.len() {
        let Some(more) = mark_length(key, found, letters[at]) else {
            return None;
        };
        let Some(sum) = total.checked_add(more) else {
            return None;
        };
        total = sum;
    }
    Some(total)
}

// Returns the number of bytes in the mark of a letter.
fn mark_length(key: &[u8], found: Option<Found>, letter: u8) -> Option<usize>
    ensures value { IfSome result (λ n. n ≡ length (mark_text key.now found letter)) }
{
    if letter == b'k' {
        return key.len().checked_add(2);
    }
    match found {
        Some(found) => Some(item_mark_length(found, letter)),
        None => Some(0),
    }
}

// Returns the number of bytes in the mark of an item.
fn item_mark_length(found: Found, letter: u8) -> usize
    ensures value { result ≡ length (item_mark found letter) }
{
    match letter {
        b'f' => 2 + digits_of(found.flags as u64),
        b'c' => 2 + digits_of(found.unique),
        b's' => 2 + digits_of(found.bytes as u64),
        _ => 0,
    }
}

/// Appends the marks of letters, in their order.
pub(crate) fn put_marks(out: &mut Reserved, key: &[u8], found: Option<Found>, letters: &[u8])
    requires fits { length (marks_text key.now found letters.now) ≤ out.old.room }
    ensures value { out.new.bytes ≡ out.old.bytes ++ marks_text key.now found letters.now }
    ensures room { out.old.room ≤ out.new.room + length (marks_text key.now found letters.now) }
{
    for at in 0..letters.len() {
        put_mark(out, key, found, letters[at]);
    }
}

// Appends the mark of a letter.
fn put_mark(out: &mut Reserved, key: &[u8], found: Option<Found>, letter: u8)
    requires fits { length (mark_text key.now found letter) ≤ out.old.room }
    ensures value { out.new.bytes ≡ out.old.bytes ++ mark_text key.now found letter }
    ensures room { out.old.room ≤ out.new.room + length (mark_text key.now found letter) }
{
    if letter == b'k' {
        out.append(b" k");
        out.append(key);
    } else if let Some(found) = found {
        put_item_mark(out, found, letter);
    }
}

// Appends the mark of an item.
fn put_item_mark(out: &mut Reserved, found: Found, letter: u8)
    requires fits { length (item_mark found letter) ≤ out.old.room }
    ensures value { out.new.bytes ≡ out.old.bytes ++ item_mark found letter }
    ensures room { out.old.room ≤ out.new.room + length (item_mark found letter) }
{
    match letter {
        b'f' => put_number(out, b" f", found.flags as u64),
        b'c' => put_number(out, b" c", found.unique),
        b's' => put_number(out, b" s", found.bytes as u64),
        _ => {}
    }
}

// Appends a name and a number.
fn put_number(out: &mut Reserved, name: &[u8], number: u64)
    requires fits { length name.now + length (decimal number) ≤ out.old.room }
    ensures value { out.new.bytes ≡ out.old.bytes ++ (name.now ++ decimal number) }
    ensures room { out.old.room ≤ out.new.room + (length name.now + length (decimal number)) }
{
    out.append(name);
    out.append_number(number);
}
