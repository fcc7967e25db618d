//! Shows in proofs that numbers fit their types: these functions do nothing.
ghost use Rattle.std.specs.Prelude.{◌<◌, ◌^◌, IfSome};
ghost use Rattle.mc_calls.specs.Bounds.{FitsCall, FitsReply};

use crate::call::Call;
use crate::call_reply::CallReply;
use crate::entry::Tag;

/// Does nothing. The call tells the prover that the numbers of an entry fit their types.
pub fn numbers_fit(tag: Tag, call: &Call, reply: &CallReply)
    ensures part { tag.part < 2 ^ 32 }
    ensures call { FitsCall call.now }
    ensures reply { FitsReply reply.now }
{
    let _part = tag.part;
    call_fits(call);
    reply_fits(reply);
}

// Does nothing. Shows that the flags and the number of a call fit their types.
fn call_fits(call: &Call)
    ensures value { FitsCall call.now }
{
    flags_fit(call.flags());
    number_fits(call.number());
}

// Does nothing. Shows that flags fit their type.
fn flags_fit(flags: Option<u32>)
    ensures value { IfSome flags (λ n. n < 2 ^ 32) }
{
    if let Some(flags) = flags {
        let _flags = flags;
    }
}

// Does nothing. Shows that a number fits its type.
fn number_fits(number: Option<u64>)
    ensures value { IfSome number (λ n. n < 2 ^ 64) }
{
    if let Some(number) = number {
        let _number = number;
    }
}

// Does nothing. Shows that the flags, the number and the counts of a reply fit their types.
fn reply_fits(reply: &CallReply)
    ensures value { FitsReply reply.now }
{
    match reply {
        CallReply::Hit { flags, unique, .. } => {
            let _flags = *flags;
            let _unique = *unique;
        }
        CallReply::Number { number } => {
            let _number = *number;
        }
        CallReply::Tally {
            gets,
            sets,
            hits,
            misses,
            items,
        } => {
            let _gets = *gets;
            let _sets = *sets;
            let _hits = *hits;
            let _misses = *misses;
            let _items = *items;
        }
        _ => {}
    }
}
