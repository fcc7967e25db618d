//! Calls that are refused by reason of the item.
ghost use Rattle.std.specs.Prelude.{◌≡◌, ◌+◌, ◌<◌, true, length, Some, IfSome};
ghost use Rattle.mc_allows.specs.Allows.{sure_limit};
ghost use Rattle.mc_allows.specs.Values.{may_read_none};
ghost use Rattle.zy_confirm.specs.Choosing.{IsAnyChosen, IsJoinRefused, IsNotCounted};

use crate::choosing::say;
use crate::outcome::Outcome;
use mc_calls::{Call, CallReply, Item};
use zy_base::{Blob, read_number};
use zy_verdict::Choice;

/// Refuses a call on this item, if the server's choice is one that it has.
pub(crate) fn refuse(call: &Call, item: &Item, choice: Choice) -> Option<Outcome>
    ensures chosen { IfSome result (IsAnyChosen (Some item.now) call.now) }
{
    match call {
        Call::Append { value, .. } | Call::Prepend { value, .. } => refuse_join(
            item, value, choice,
        ),
        Call::Incr { .. } | Call::Decr { .. } => refuse_count(item, choice),
        _ => None,
    }
}

// Refuses to join a piece to a value, if the joined value is long.
fn refuse_join(item: &Item, piece: &Blob, choice: Choice) -> Option<Outcome>
    ensures refused { IfSome result (IsJoinRefused item.now piece.now) }
{
    if item.value.bytes().len() + piece.bytes().len() <= 1_000_000 {
        return None;
    }
    match choice {
        Choice::Refused => Some(say(CallReply::NotStored)),
        Choice::TooLarge => Some(say(CallReply::TooLarge)),
        _ => None,
    }
}

// Finds no number in the item's value, if there may be none.
fn refuse_count(item: &Item, choice: Choice) -> Option<Outcome>
    ensures refused { IfSome result (IsNotCounted item.now) }
{
    if choice == Choice::NoNumber && may_read_none(item.value.bytes()) {
        Some(say(CallReply::NotNumber))
    } else {
        None
    }
}

// Checks whether a server may find no number in a value.
fn may_read_none(value: &[u8]) -> bool
    ensures value { result ≡ may_read_none value.now }
{
    match read_number(value) {
        Some(number) => 9_223_372_036_854_775_808 <= number,
        None => true,
    }
}
