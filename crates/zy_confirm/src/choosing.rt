//! What a call does at its key, with what its server chose.
ghost use Rattle.std.specs.Prelude.{◌≡◌, ◌++◌, ℕ, List, None, Some, IfOk, IfSome, option_copied};
ghost use Rattle.mc_calls.specs.declared.call.Call.TheVariants.{Cas};
ghost use Rattle.zy_confirm.specs.Choosing.{IsAnyChosen};

use crate::counting::{count_down, count_up};
use crate::failing::fail;
use crate::outcome::{After, Outcome};
use crate::refusing::refuse;
use mc_allows::Said;
use mc_calls::{Call, CallReply, Item};
use std::alloc::Global;
use zy_base::{Blob, NoMemory, VALUE_LIMIT};
use zy_verdict::Choice;

/// Returns what a call does at a key that has this, if the server's choice is one that it has.
pub(crate) fn choose(
    alloc: Global,
    call: &Call,
    found: Option<&Item>,
    choice: Choice,
) -> Result<Option<Outcome>, NoMemory>
    ensures chosen { IfOk result (λ o. IfSome o (IsAnyChosen (option_copied found.entry) call.now)) }
{
    match (choice, found) {
        (Choice::Plain, None) => without(call),
        (Choice::Plain | Choice::Padded | Choice::Read(_), Some(item)) => {
            with(alloc, call, item, choice)
        }
        (Choice::Failed, _) => Ok(fail(call, false)),
        (Choice::FailedAndGone, _) => Ok(fail(call, true)),
        (_, Some(item)) => Ok(refuse(call, item, choice)),
        (_, None) => Ok(None),
    }
}

// Returns what a call does at a key without an item, unless it is a flush or a tally.
fn without(call: &Call) -> Result<Option<Outcome>, NoMemory>
    ensures chosen { IfOk result (λ o. IfSome o (IsAnyChosen None call.now)) }
{
    match call {
        Call::Get { .. } => Ok(Some(say(CallReply::Miss))),
        Call::Set { flags, value, .. } | Call::Add { flags, value, .. } => {
            Ok(Some(put(*flags, value)?))
        }
        Call::Replace { .. } | Call::Append { .. } | Call::Prepend { .. } => {
            Ok(Some(say(CallReply::NotStored)))
        }
        Call::Cas { .. } | Call::Incr { .. } | Call::Decr { .. } | Call::Delete { .. } => {
            Ok(Some(say(CallReply::NotFound)))
        }
        Call::Flush | Call::Tally => Ok(None),
    }
}

// Returns what a call does at a key with this item, unless it is a flush or a tally.
fn with(
    alloc: Global,
    call: &Call,
    item: &Item,
    choice: Choice,
) -> Result<Option<Outcome>, NoMemory>
    ensures chosen { IfOk result (λ o. IfSome o (IsAnyChosen (Some item.now) call.now)) }
{
    match call {
        Call::Get { .. } => Ok(Some(show(item)?)),
        Call::Set { flags, value, .. } | Call::Replace { flags, value, .. } => {
            Ok(Some(put(*flags, value)?))
        }
        Call::Add { .. } => Ok(Some(say(CallReply::NotStored))),
        Call::Append { value, .. } => join(item, &item.value, value),
        Call::Prepend { value, .. } => join(item, value, &item.value),
        Call::Cas {
            flags,
            unique,
            value,
            ..
        } => Ok(Some(exchange(item, *flags, *unique, value)?)),
        Call::Incr { amount, .. } => count_up(alloc, item, *amount, choice),
        Call::Decr { amount, .. } => count_down(alloc, item, *amount, choice),
        Call::Delete { .. } => Ok(Some(remove())),
        Call::Flush | Call::Tally => Ok(None),
    }
}

/// Gives this reply, and leaves the key as it is.
pub(crate) fn say(reply: CallReply) -> Outcome
    ensures value { result ≡ record { said = Said.Replied reply; after = After.Same } }
{
    Outcome {
        said: Said::Replied { reply },
        after: After::Same,
    }
}

// Stores this value.
fn put(flags: u32, value: &Blob) -> Result<Outcome, NoMemory>
    ensures value { IfOk result (λ o. o ≡ record {
      said = Said.Replied CallReply.Stored;
      after = After.Put flags value.now;
    }) }
{
    let value = value.copy()?;
    Ok(stored(flags, value))
}

/// Stores this value.
pub(crate) fn stored(flags: u32, value: Blob) -> Outcome
    ensures value { result ≡ record { said = Said.Replied CallReply.Stored; after = After.Put flags value } }
{
    Outcome {
        said: Said::Replied {
            reply: CallReply::Stored,
        },
        after: After::Put { flags, value },
    }
}

// Shows the item.
fn show(item: &Item) -> Result<Outcome, NoMemory>
    ensures value { IfOk result (λ o. o ≡ record {
      said = Said.Replied (CallReply.Hit item.now.flags item.now.unique item.now.value);
      after = After.Same;
    }) }
{
    let value = item.value.copy()?;
    Ok(say(CallReply::Hit {
        flags: item.flags,
        unique: item.unique,
        value,
    }))
}

// Stores the joined value, with the item's flags, unless it is too large.
fn join(item: &Item, front: &Blob, back: &Blob) -> Result<Option<Outcome>, NoMemory>
    ensures value { IfOk result (λ o. IfSome o (λ x. x ≡ record {
      said = Said.Replied CallReply.Stored;
      after = After.Put item.now.flags (front.now ++ back.now);
    })) }
{
    if front.bytes().len() + back.bytes().len() > VALUE_LIMIT as usize {
        return Ok(None);
    }
    let mut value = front.copy()?;
    if let Err(refused) = value.append(back.bytes()) {
        drop(value);
        return Err(refused);
    }
    Ok(Some(stored(item.flags, value)))
}

// Replaces the item if it has this unique.
fn exchange(item: &Item, flags: u32, unique: u64, value: &Blob) -> Result<Outcome, NoMemory>
    ensures chosen { IfOk result (λ o. (key : List ℕ)
        → IsAnyChosen (Some item.now) (Cas flags key unique value.now) o) }
{
    if item.unique == unique {
        put(flags, value)
    } else {
        Ok(say(CallReply::Exists))
    }
}

// Removes the item.
fn remove() -> Outcome
    ensures value { result ≡ record { said = Said.Replied CallReply.Deleted; after = After.Gone } }
{
    Outcome {
        said: Said::Replied {
            reply: CallReply::Deleted,
        },
        after: After::Gone,
    }
}
