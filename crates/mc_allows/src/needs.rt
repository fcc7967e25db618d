//! What an answer needs of the item before its call.
ghost use Rattle.std.specs.Prelude.{◌≡◌, IfOk};
ghost use Rattle.mc_allows.specs.Needs as Needs;
ghost use Rattle.mc_allows.specs.declared.fact.Fact.TheVariants as Facts;

use crate::fact::Fact;
use crate::shown::Shown;
use mc_calls::{Call, CallReply};
use zy_base::{Blob, NoMemory};

/// Returns what all that may have been said to a call needs, by what its answer shows.
pub fn need_of(call: &Call, shown: &Shown) -> Result<Fact, NoMemory>
    ensures value { IfOk result (λ fact. fact ≡ Needs.need_of call.now shown.now) }
{
    match shown {
        Shown::Nothing | Shown::NoFailure | Shown::Failure => Ok(Fact::Unknown),
        Shown::Reply { reply } => need_of_reply(call, reply),
        Shown::SomeHit => Ok(Fact::Present),
        Shown::HitWith { value } => value_fact(value),
    }
}

// Returns what a reply to a call needs.
fn need_of_reply(call: &Call, reply: &CallReply) -> Result<Fact, NoMemory>
    ensures value { IfOk result (λ fact. fact ≡ Needs.need_of_reply call.now reply.now) }
{
    match reply {
        CallReply::Miss | CallReply::NotFound => Ok(Fact::Absent),
        CallReply::Hit { flags, value, .. } => item_fact(*flags, value),
        CallReply::Stored => Ok(need_stored(call)),
        CallReply::NotStored => Ok(need_not_stored(call)),
        CallReply::Exists | CallReply::Deleted => Ok(Fact::Present),
        CallReply::Number { number } => Ok(need_counted(call, *number)),
        CallReply::NotNumber | CallReply::TooLarge => Ok(Fact::Present),
        CallReply::Flushed | CallReply::Tally { .. } => Ok(Fact::Unknown),
    }
}

/// Returns the fact that an item has these flags and this value.
pub fn item_fact(flags: u32, value: &Blob) -> Result<Fact, NoMemory>
    ensures value { IfOk result (λ fact. fact ≡ Facts.Item flags value.now) }
{
    let value = value.copy()?;
    Ok(Fact::Item { flags, value })
}

/// Returns the fact that an item has this value.
pub fn value_fact(value: &Blob) -> Result<Fact, NoMemory>
    ensures value { IfOk result (λ fact. fact ≡ Facts.Value value.now) }
{
    let value = value.copy()?;
    Ok(Fact::Value { value })
}

// Returns what a call that stored needs.
fn need_stored(call: &Call) -> Fact
    ensures value { result ≡ Needs.need_stored call.now }
{
    match call {
        Call::Set { .. } => Fact::Unknown,
        Call::Add { .. } => Fact::Absent,
        _ => Fact::Present,
    }
}

/// Returns what a call that did not store needs and leaves.
pub(crate) fn need_not_stored(call: &Call) -> Fact
    ensures value { result ≡ Needs.need_not_stored call.now }
{
    match call {
        Call::Add { .. } => Fact::Present,
        Call::Append { .. } | Call::Prepend { .. } => Fact::Unknown,
        _ => Fact::Absent,
    }
}

// Returns what a call that counted to this number needs.
fn need_counted(call: &Call, number: u64) -> Fact
    ensures value { result ≡ Needs.need_counted call.now number }
{
    match call {
        Call::Incr { amount, .. } => Fact::Number {
            number: number.wrapping_sub(*amount),
        },
        Call::Decr { amount, .. } => taken_from(*amount, number),
        _ => Fact::Unknown,
    }
}

// Returns what a decr by this amount that counted to this number needs.
fn taken_from(amount: u64, number: u64) -> Fact
    ensures value { result ≡ Needs.taken_from amount number }
{
    if number == 0 {
        return Fact::Present;
    }
    match number.checked_add(amount) {
        Some(number) => Fact::Number { number },
        None => Fact::Never,
    }
}
