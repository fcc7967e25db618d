//! The items of a retrieval, and the end.
ghost use Rattle.std.specs.Prelude.{◌≡◌, true, length, List, ℕ, IfOk};
ghost use Rattle.mc_answers.specs.Answer.{found_items, IsListing};
ghost use Rattle.mc_answers.specs.Kinds.{IsEndText};
ghost use Rattle.mc_calls.specs.declared.call.Call.TheVariants.{Get};
ghost use Rattle.mc_answers.specs.Said.{AreGot, MaySay};
ghost use Rattle.mc_answered.specs.With.{IsFound, said_item, said_items};

use crate::any_order::length_in_any_order;
use crate::item::Shown;
use crate::text::text_from;
use mc_allows::Said;
use mc_calls::CallReply;
use std::alloc::Global;
use zy_base::{Blob, NoMemory, VALUE_LIMIT};

/// Returns the length of the items that were found, and the end, if the bytes begin with them in any order.
pub(crate) fn listing_length(
    alloc: Global,
    keys: &[Blob],
    asked: bool,
    saids: &[Said],
    bytes: &[u8],
) -> Result<Option<usize>, NoMemory>
    requires got { AreGot keys.now saids.now }
    ensures value { IfOk result (IsFound (IsListing (found_items asked keys.now saids.now)) bytes.now) }
{
    match length_in_order(keys, asked, saids, bytes) {
        Some(length) => Ok(Some(length)),
        None => length_in_any_order(alloc, keys, asked, saids, bytes),
    }
}

/// Checks whether this may be said to the gets of keys.
pub(crate) fn are_got(keys: &[Blob], saids: &[Said]) -> bool
    ensures value { result ≡ true → AreGot keys.now saids.now }
{
    if keys.len() != saids.len() {
        return false;
    }
    for i in 0..saids.len() {
        if !is_got(&saids[i]) {
            return false;
        }
    }
    true
}

/// Checks whether this may be said to a get.
pub(crate) fn is_got(said: &Said) -> bool
    ensures value { (key : List ℕ) → result ≡ true → MaySay (Get key) said.now }
{
    match said {
        Said::Replied {
            reply: CallReply::Hit {
                flags,
                unique,
                value,
            },
        } => {
            let _flags = *flags;
            let _unique = *unique;
            value.bytes().len() <= VALUE_LIMIT as usize
        }
        Said::Replied {
            reply: CallReply::Miss,
        } => true,
        _ => false,
    }
}

// Returns the length of the items in the order of the keys, and the end.
fn length_in_order(keys: &[Blob], asked: bool, saids: &[Said], bytes: &[u8]) -> Option<usize>
    requires got { AreGot keys.now saids.now }
    ensures value { IsFound (IsListing (found_items asked keys.now saids.now)) bytes.now result }
{
    let Some(at) = items_length(keys, asked, saids, bytes) else {
        return None;
    };
    let Some(end) = end_length(text_from(bytes, at)) else {
        return None;
    };
    Some(at + end)
}

// Returns the length of the items in the order of the keys.
fn items_length(keys: &[Blob], asked: bool, saids: &[Said], bytes: &[u8]) -> Option<usize>
    requires same { length keys.now ≡ length saids.now }
    ensures value { IsFound (λ text. text ≡ said_items asked keys.now saids.now) bytes.now result }
{
    let mut at = 0;
    for i in 0..keys.len() {
        match found_length(keys[i].bytes(), asked, &saids[i], text_from(bytes, at)) {
            Some(length) => at += length,
            None => return None,
        }
    }
    Some(at)
}

/// Returns the length of the end, if the bytes begin with it.
pub(crate) fn end_length(bytes: &[u8]) -> Option<usize>
    ensures value { IsFound IsEndText bytes.now result }
{
    if bytes.starts_with(b"END\r\n") {
        Some(5)
    } else {
        None
    }
}

/// Returns the length of the item that was found for a key, if the bytes begin with it; 0 if there was none.
pub(crate) fn found_length(key: &[u8], asked: bool, said: &Said, bytes: &[u8]) -> Option<usize>
    ensures value { IsFound (λ text. text ≡ said_item asked key.now said.now) bytes.now result }
{
    match said {
        Said::Replied {
            reply: CallReply::Hit {
                flags,
                unique,
                value,
            },
        } => {
            let shown = Shown {
                key,
                flags: *flags,
                unique: *unique,
                value: value.bytes(),
                asked,
            };
            shown.length_in(bytes)
        }
        _ => Some(0),
    }
}
