//! The items of a retrieval in any order.
ghost use Rattle.std.specs.Prelude.{◌≡◌, true, [], length, IfOk, IfSome};
ghost use Rattle.std.specs.List.{AllByRecursion};
ghost use Rattle.mc_answers.specs.Answer.{found_items, IsListing};
ghost use Rattle.mc_answers.specs.Said.{AreGot};
ghost use Rattle.mc_answered.specs.With.{IsFound, IsNext, IsBelow, found_from, is_found};

use crate::listing::{end_length, found_length};
use crate::text::text_from;
use mc_allows::Said;
use mc_calls::CallReply;
use std::alloc::Global;
use zy_base::{Blob, NoMemory};

// An item that stands next: its place among those that are left, and the length of its text.
#[derive(Clone, Copy)]
struct Next {
    place: usize,
    length: usize,
}

/// Returns the length of the items that were found, and the end, if the bytes begin with them.
pub(crate) fn length_in_any_order(
    alloc: Global,
    keys: &[Blob],
    asked: bool,
    saids: &[Said],
    bytes: &[u8],
) -> Result<Option<usize>, NoMemory>
    requires got { AreGot keys.now saids.now }
    ensures value { IfOk result (IsFound (IsListing (found_items asked keys.now saids.now)) bytes.now) }
{
    let mut left = found_indices(alloc, saids)?;
    let mut at = 0;
    while !is_none(left.as_slice()) {
        match next_item(keys, asked, saids, left.as_slice(), text_from(bytes, at)) {
            Some(next) => {
                at += next.length;
                left.remove(next.place);
            }
            None => {
                drop(left);
                return Ok(None);
            }
        }
    }
    drop(left);
    match end_length(text_from(bytes, at)) {
        Some(end) => Ok(Some(at + end)),
        None => Ok(None),
    }
}

// Checks whether no index is left.
fn is_none(left: &[usize]) -> bool
    ensures value { result ≡ true → left.now ≡ [] }
{
    left.is_empty()
}

// Returns the item that stands next, if it is left.
fn next_item(
    keys: &[Blob],
    asked: bool,
    saids: &[Said],
    left: &[usize],
    bytes: &[u8],
) -> Option<Next>
    requires same { length keys.now ≡ length saids.now }
    requires within { AllByRecursion (IsBelow (length saids.now)) left.now }
    ensures value { IfSome result (λ next. IsNext asked keys.now saids.now left.now bytes.now next.place next.length) }
{
    for place in 0..left.len() {
        let i = left[place];
        if let Some(length) = found_length(keys[i].bytes(), asked, &saids[i], bytes) {
            return Some(Next { place, length });
        }
    }
    None
}

// Returns the indices of the keys whose items were found.
fn found_indices(alloc: Global, saids: &[Said]) -> Result<Vec<usize>, NoMemory>
    ensures value { IfOk result (λ found. found.items ≡ found_from 0 saids.now) }
{
    let mut found = Vec::new(alloc);
    for i in 0..saids.len() {
        if is_found(&saids[i]) {
            if found.push(i).is_err() {
                drop(found);
                return Err(NoMemory);
            }
        }
    }
    Ok(found)
}

// Checks whether an item was found.
fn is_found(said: &Said) -> bool
    ensures value { result ≡ is_found said.now }
{
    matches!(
        said,
        Said::Replied {
            reply: CallReply::Hit { .. }
        }
    )
}
