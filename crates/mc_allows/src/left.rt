//! What an answer surely leaves after its call.
ghost use Rattle.std.specs.Prelude.{◌≡◌, IfOk};
ghost use Rattle.mc_allows.specs.Needs as Needs;
ghost use Rattle.mc_allows.specs.declared.fact.Fact.TheVariants as Facts;

use crate::fact::Fact;
use crate::needs::{item_fact, need_not_stored, value_fact};
use crate::shown::Shown;
use mc_calls::{Call, CallReply};
use zy_base::{Blob, NoMemory};

/// Returns what all that may have been said to a call surely leaves, by what its answer shows.
pub fn left_by(call: &Call, shown: &Shown) -> Result<Fact, NoMemory>
    ensures value { IfOk result (λ fact. fact ≡ Needs.left_by call.now shown.now) }
{
    match shown {
        Shown::Nothing => Ok(left_always(call)),
        Shown::NoFailure => left_unfailed(call),
        Shown::Reply { reply } => left_by_reply(call, reply),
        Shown::SomeHit => Ok(Fact::Present),
        Shown::HitWith { value } => value_fact(value),
        Shown::Failure => Ok(Fact::Unknown),
    }
}

// Returns what a reply to a call surely leaves.
fn left_by_reply(call: &Call, reply: &CallReply) -> Result<Fact, NoMemory>
    ensures value { IfOk result (λ fact. fact ≡ Needs.left_by_reply call.now reply.now) }
{
    match reply {
        CallReply::Miss | CallReply::NotFound | CallReply::Deleted => Ok(Fact::Absent),
        CallReply::Hit { flags, value, .. } => item_fact(*flags, value),
        CallReply::Stored => left_stored(call),
        CallReply::NotStored => Ok(need_not_stored(call)),
        CallReply::Number { number } => Ok(Fact::Counted { number: *number }),
        CallReply::Exists | CallReply::NotNumber | CallReply::TooLarge => Ok(Fact::Present),
        CallReply::Flushed => Ok(Fact::Absent),
        CallReply::Tally { .. } => Ok(Fact::Unknown),
    }
}

// Returns what a call that stored leaves.
fn left_stored(call: &Call) -> Result<Fact, NoMemory>
    ensures value { IfOk result (λ fact. fact ≡ Needs.left_stored call.now) }
{
    match call {
        Call::Set { flags, value, .. } => item_fact(*flags, value),
        Call::Add { flags, value, .. } => item_fact(*flags, value),
        Call::Replace { flags, value, .. } => item_fact(*flags, value),
        Call::Cas { flags, value, .. } => item_fact(*flags, value),
        Call::Append { value, .. } => ending_fact(value),
        Call::Prepend { value, .. } => beginning_fact(value),
        _ => Ok(Fact::Unknown),
    }
}

fn ending_fact(piece: &Blob) -> Result<Fact, NoMemory>
    ensures value { IfOk result (λ fact. fact ≡ Facts.Ending piece.now) }
{
    let piece = piece.copy()?;
    Ok(Fact::Ending { piece })
}

fn beginning_fact(piece: &Blob) -> Result<Fact, NoMemory>
    ensures value { IfOk result (λ fact. fact ≡ Facts.Beginning piece.now) }
{
    let piece = piece.copy()?;
    Ok(Fact::Beginning { piece })
}

// Returns what a call leaves, whatever was said to it.
fn left_always(call: &Call) -> Fact
    ensures value { result ≡ Needs.left_always call.now }
{
    match call {
        Call::Delete { .. } | Call::Flush => Fact::Absent,
        _ => Fact::Unknown,
    }
}

// Returns what a call that did not fail leaves.
fn left_unfailed(call: &Call) -> Result<Fact, NoMemory>
    ensures value { IfOk result (λ fact. fact ≡ Needs.left_unfailed call.now) }
{
    match call {
        Call::Set { flags, value, .. } => item_fact(*flags, value),
        Call::Add { .. } => Ok(Fact::Present),
        _ => Ok(left_always(call)),
    }
}
