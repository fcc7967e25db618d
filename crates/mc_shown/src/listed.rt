//! The items that the answer to a retrieval lists.
ghost use Rattle.std.specs.Prelude.{◌≡◌, true, IfOk, IfSome};
ghost use Rattle.mc_answers.specs.Kinds.{IsEndText};
ghost use Rattle.mc_shown.specs.Listing.{AreListed, IsNext, IsValueOf};

use mc_answered::{line_length, read_heading, text_from};
use std::alloc::Global;
use zy_base::{NoMemory, VALUE_LIMIT};

/// An item that an answer lists.
#[derive(Clone, Copy)]
pub(crate) struct Listed<'a> {
    pub(crate) key: &'a [u8],
    pub(crate) flags: u32,
    /// 0 if uniques were not asked for.
    pub(crate) unique: u64,
    pub(crate) value: &'a [u8],
}

// An item that stands next, and the length of its text.
#[derive(Clone, Copy)]
struct Next<'a> {
    item: Listed<'a>,
    length: usize,
}

/// Reads an answer that is items and the end. `None` for some rare answers too.
pub(crate) fn read_items(
    alloc: Global,
    asked: bool,
    text: &[u8],
) -> Result<Option<Vec<Listed<'_>>>, NoMemory>
    ensures value { IfOk result (λ found. IfSome found (λ items. AreListed asked items.items text.now)) }
{
    let mut items = Vec::new(alloc);
    let mut at = 0;
    for _ in 0..text.len() {
        let rest = text_from(text, at);
        if is_end(rest) {
            return Ok(Some(items));
        }
        match next_item(asked, rest) {
            Some(next) => {
                if items.push(next.item).is_err() {
                    drop(items);
                    return Err(NoMemory);
                }
                at += next.length;
            }
            None => {
                drop(items);
                return Ok(None);
            }
        }
    }
    drop(items);
    Ok(None)
}

// Checks whether a text is the end of the items.
fn is_end(text: &[u8]) -> bool
    ensures value { result ≡ true → IsEndText text.now }
{
    text == b"END\r\n".as_slice()
}

// Reads the item with which the bytes begin.
fn next_item(asked: bool, bytes: &[u8]) -> Option<Next<'_>>
    ensures value { IfSome result (λ next. IsNext asked bytes.now next.item next.length) }
{
    let Some(line) = line_length(bytes) else {
        return None;
    };
    let Some(heading) = read_heading(&bytes[..line], asked) else {
        return None;
    };
    let Some(value) = value_in(text_from(bytes, line), heading.count) else {
        return None;
    };
    let item = Listed {
        key: heading.key,
        flags: heading.flags,
        unique: heading.unique,
        value,
    };
    Some(Next {
        item,
        length: line + value.len() + 2,
    })
}

// Returns the value of this many bytes with which the bytes begin, before the end of its line.
fn value_in(bytes: &[u8], count: u64) -> Option<&[u8]>
    ensures value { IfSome result (λ value. IsValueOf count bytes.now value.now) }
{
    if count > VALUE_LIMIT as u64 || count > bytes.len() as u64 {
        return None;
    }
    let (value, rest) = bytes.split_at(count as usize);
    if rest.starts_with(b"\r\n") {
        Some(value)
    } else {
        None
    }
}
