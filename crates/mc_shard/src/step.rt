//! The reply and the change of each call, on a key without an item and on a key with one.
ghost use Rattle.std.specs.Prelude.{◌≡◌, ℕ, List, ◌++◌, None, Some, option_copied, decimal, OnOk};
ghost use Rattle.mc_calls.specs.declared.call_reply.CallReply.TheVariants.{Hit};
ghost use Rattle.mc_calls.specs.Call.{key_of};
ghost use Rattle.mc_calls.specs.Code.{tally};
ghost use Rattle.zy_base.specs.Number.{number_of};
ghost use Rattle.mc_calls.specs.Shard as table;
ghost use Rattle.mc_shard.specs.Step.{outcome_in, Gives};

use crate::change::{Change, Step};
use mc_calls::{Call, CallReply, Item, Tallied};
use std::alloc::Global;
use zy_base::{Blob, NoMemory, VALUE_LIMIT, number_text, read_number};

/// Returns the reply and the change of a call, on a shard with these counts, by the item of the
/// call's key.
#[inline(always)]
pub fn step_of(
    alloc: Global,
    call: &Call,
    counts: Tallied,
    found: Option<&Item>,
) -> Result<Step, NoMemory>
    ensures value { Gives (key_of call.now) result
        (table.outcome_of counts call.now (option_copied found.entry)) }
{
    match found {
        None => step_without(call, counts),
        Some(item) => step_with(alloc, call, counts, item),
    }
}

// Returns the reply and the change of a call whose key has no item.
#[inline(always)]
fn step_without(call: &Call, counts: Tallied) -> Result<Step, NoMemory>
    ensures value { Gives (key_of call.now) result (table.outcome_of counts call.now None) }
{
    match call {
        Call::Get { .. } => Ok(reply_alone(CallReply::Miss)),
        Call::Set { flags, value, .. } => put(*flags, value),
        Call::Add { flags, value, .. } => put(*flags, value),
        Call::Replace { .. } => Ok(reply_alone(CallReply::NotStored)),
        Call::Append { .. } => Ok(reply_alone(CallReply::NotStored)),
        Call::Prepend { .. } => Ok(reply_alone(CallReply::NotStored)),
        Call::Cas { .. } => Ok(reply_alone(CallReply::NotFound)),
        Call::Incr { .. } => Ok(reply_alone(CallReply::NotFound)),
        Call::Decr { .. } => Ok(reply_alone(CallReply::NotFound)),
        Call::Delete { .. } => Ok(reply_alone(CallReply::NotFound)),
        Call::Flush => Ok(clear()),
        Call::Tally => Ok(tallied(counts)),
    }
}

// Returns the reply and the change of a call whose key has this item.
#[inline(always)]
fn step_with(alloc: Global, call: &Call, counts: Tallied, item: &Item) -> Result<Step, NoMemory>
    ensures value { Gives (key_of call.now) result (table.outcome_of counts call.now (Some item.now)) }
{
    match call {
        Call::Get { .. } => hit(item),
        Call::Set { flags, value, .. } => put(*flags, value),
        Call::Add { .. } => Ok(reply_alone(CallReply::NotStored)),
        Call::Replace { flags, value, .. } => put(*flags, value),
        Call::Append { value, .. } => join(item, &item.value, value),
        Call::Prepend { value, .. } => join(item, value, &item.value),
        Call::Cas {
            flags,
            unique,
            value,
            ..
        } => exchange(item, *flags, *unique, value),
        Call::Incr { amount, .. } => count_up(alloc, item, *amount),
        Call::Decr { amount, .. } => count_down(alloc, item, *amount),
        Call::Delete { .. } => Ok(remove()),
        Call::Flush => Ok(clear()),
        Call::Tally => Ok(tallied(counts)),
    }
}

// Makes a step with this reply, and no change.
fn reply_alone(reply: CallReply) -> Step
    ensures value { result ≡ record { reply = reply; change = Change.Nothing } }
{
    Step {
        reply,
        change: Change::Nothing,
    }
}

// Replies with the item.
fn hit(item: &Item) -> Result<Step, NoMemory>
    ensures value { (key : List ℕ) → Gives (Some key) result
        (table.answers (Hit item.now.flags item.now.unique item.now.value)) }
{
    let value = item.value.copy()?;
    Ok(reply_alone(CallReply::Hit {
        flags: item.flags,
        unique: item.unique,
        value,
    }))
}

// Puts an item at the key.
fn put(flags: u32, value: &Blob) -> Result<Step, NoMemory>
    ensures value { (key : List ℕ) → Gives (Some key) result (table.stored key flags value.now) }
{
    let value = value.copy()?;
    Ok(Step {
        reply: CallReply::Stored,
        change: Change::Put { flags, value },
    })
}

// Puts the joined value, with the item's flags, unless it is too large.
fn join(item: &Item, front: &Blob, back: &Blob) -> Result<Step, NoMemory>
    ensures value { (key : List ℕ) → Gives (Some key) result (table.joined key item.now (front.now ++ back.now)) }
{
    if front.bytes().len() + back.bytes().len() > VALUE_LIMIT as usize {
        return Ok(reply_alone(CallReply::TooLarge));
    }
    let mut value = front.copy()?;
    if let Err(refused) = lengthen(&mut value, back) {
        drop(value);
        return Err(refused);
    }
    Ok(Step {
        reply: CallReply::Stored,
        change: Change::Put {
            flags: item.flags,
            value,
        },
    })
}

// Appends a value to another, whose copies then share its bytes.
fn lengthen(value: &mut Blob, back: &Blob) -> Result<(), NoMemory>
    ensures ok { OnOk result (value.new ≡ value.old ++ back.now) }
{
    value.append(back.bytes())?;
    value.share()
}

// Replaces the item if it has the unique that the caller saw.
fn exchange(item: &Item, flags: u32, unique: u64, value: &Blob) -> Result<Step, NoMemory>
    ensures value { (key : List ℕ) → Gives (Some key) result (table.exchanged key item.now flags unique value.now) }
{
    if item.unique == unique {
        put(flags, value)
    } else {
        Ok(reply_alone(CallReply::Exists))
    }
}

// Counts a value that is a number up, modulo 2^64.
fn count_up(alloc: Global, item: &Item, amount: u64) -> Result<Step, NoMemory>
    ensures value { (key : List ℕ) → Gives (Some key) result
        (table.counted_up key item.now amount (number_of item.now.value)) }
{
    match read_number(item.value.bytes()) {
        Some(number) => put_number(alloc, item, number.wrapping_add(amount)),
        None => Ok(reply_alone(CallReply::NotNumber)),
    }
}

// Counts a value that is a number down, and not below 0.
fn count_down(alloc: Global, item: &Item, amount: u64) -> Result<Step, NoMemory>
    ensures value { (key : List ℕ) → Gives (Some key) result
        (table.counted_down key item.now amount (number_of item.now.value)) }
{
    match read_number(item.value.bytes()) {
        Some(number) => put_number(alloc, item, number.saturating_sub(amount)),
        None => Ok(reply_alone(CallReply::NotNumber)),
    }
}

// Puts the number as digits, with the item's flags.
fn put_number(alloc: Global, item: &Item, number: u64) -> Result<Step, NoMemory>
    ensures value { (key : List ℕ) → Gives (Some key) result (table.renumbered key item.now number) }
{
    let mut value = Blob::new(alloc);
    if let Err(refused) = write_digits(&mut value, number) {
        drop(value);
        return Err(refused);
    }
    Ok(Step {
        reply: CallReply::Number { number },
        change: Change::Put {
            flags: item.flags,
            value,
        },
    })
}

// Appends the digits of a number to a value, whose copies then share its bytes.
fn write_digits(value: &mut Blob, number: u64) -> Result<(), NoMemory>
    ensures ok { OnOk result (value.new ≡ value.old ++ decimal number) }
{
    number_text(value, number)?;
    value.share()
}

// Removes the item of the key.
fn remove() -> Step
    ensures value { result ≡ record { reply = CallReply.Deleted; change = Change.Remove } }
{
    Step {
        reply: CallReply::Deleted,
        change: Change::Remove,
    }
}

// Removes all items.
fn clear() -> Step
    ensures value { result ≡ record { reply = CallReply.Flushed; change = Change.Clear } }
{
    Step {
        reply: CallReply::Flushed,
        change: Change::Clear,
    }
}

// Replies with what the shard counts.
fn tallied(counts: Tallied) -> Step
    ensures value { result ≡ record { reply = tally counts; change = Change.Nothing } }
{
    reply_alone(CallReply::tally(counts))
}
