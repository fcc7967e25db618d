//! What the answer to a retrieval shows.
ghost use Rattle.std.specs.Prelude.{◌≡◌, ◌<◌, length, List, IfOk};
ghost use Rattle.mc_allows.specs.declared.shown.Shown.TheVariants as Shows;
ghost use Rattle.mc_calls.specs.declared.call_reply.CallReply.TheVariants as Replies;
ghost use Rattle.std.specs.List.{AllByRecursion};
ghost use Rattle.mc_parse.specs.declared.command.Command.{Command};
ghost use Rattle.mc_allows.specs.declared.said.Said.{Said};
ghost use Rattle.mc_answers.specs.Answer.{IsAnswer};
ghost use Rattle.mc_answers.specs.Cut.{IsWord};
ghost use Rattle.mc_shown.specs.Listing.{IsListed, SuitsAt, AreSuitedAt};
ghost use Rattle.mc_shown.specs.Parts.{AreSuited};

use crate::keyed::{is_once, item_of};
use crate::listed::{Listed, read_items};
use crate::part::{Part, push_part};
use mc_allows::Shown;
use mc_calls::CallReply;
use mc_kind::are_words;
use std::alloc::Global;
use zy_base::{Blob, NoMemory};

/// Returns what an answer shows of the get of each key.
pub(crate) fn listing_parts(
    alloc: Global,
    keys: &[Blob],
    asked: bool,
    text: &[u8],
) -> Result<Vec<Part>, NoMemory>
    ensures suits { IfOk result (λ parts. (saids : List Said) → IsAnswer (Command.Get keys.now asked) saids text.now
        → AreSuited parts.items saids) }
{
    if !are_words(keys) {
        return Ok(Vec::new(alloc));
    }
    match read_items(alloc, asked, text)? {
        Some(items) => {
            let parts = parts_of(alloc, keys, asked, items.as_slice());
            drop(items);
            parts
        }
        None => Ok(Vec::new(alloc)),
    }
}

// Returns what listed items show of the get of each key.
fn parts_of(
    alloc: Global,
    keys: &[Blob],
    asked: bool,
    items: &[Listed<'_>],
) -> Result<Vec<Part>, NoMemory>
    requires words { AllByRecursion IsWord keys.now }
    requires each { AllByRecursion IsListed items.now }
    ensures value { IfOk result (λ parts. AreSuitedAt asked keys.now items.now parts.items) }
{
    let mut parts = Vec::new(alloc);
    for i in 0..keys.len() {
        match key_part(alloc, keys, i, asked, items) {
            Ok(part) => {
                if let Err(refused) = push_part(&mut parts, part) {
                    drop(parts);
                    return Err(refused);
                }
            }
            Err(refused) => {
                drop(parts);
                return Err(refused);
            }
        }
    }
    Ok(parts)
}

// Returns what listed items show of the get of the key with this index.
fn key_part(
    alloc: Global,
    keys: &[Blob],
    i: usize,
    asked: bool,
    items: &[Listed<'_>],
) -> Result<Part, NoMemory>
    requires low { i < length keys.now }
    requires words { AllByRecursion IsWord keys.now }
    requires each { AllByRecursion IsListed items.now }
    ensures value { IfOk result (λ part. SuitsAt asked keys.now items.now i part.shown) }
{
    match item_of(items, keys[i].bytes()) {
        Some(item) => {
            if is_once(keys, i) {
                hit(alloc, asked, item)
            } else {
                Ok(Part::new(Shown::Nothing))
            }
        }
        None => Ok(Part::new(Shown::Reply {
            reply: CallReply::Miss,
        })),
    }
}

// Makes what the item of a key shows.
fn hit(alloc: Global, asked: bool, item: Listed<'_>) -> Result<Part, NoMemory>
    ensures value { IfOk result (λ part. part.shown
        ≡ Shows.Reply (Replies.Hit item.entry.flags item.entry.unique item.entry.value.now)) }
{
    let value = Blob::copy_of(alloc, item.value)?;
    let reply = CallReply::Hit {
        flags: item.flags,
        unique: item.unique,
        value,
    };
    Ok(Part {
        shown: Shown::Reply { reply },
        unique: if asked { Some(item.unique) } else { None },
    })
}
