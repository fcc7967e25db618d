//! The lines of replies.
ghost use Rattle.std.specs.Prelude.{◌≡◌, ◌↔◌, true};
ghost use Rattle.mc_calls.specs.Shard.{may_say};
ghost use Rattle.mc_calls.specs.Table.{row_of};
ghost use Rattle.mc_calls.specs.declared.call_reply.CallReply.{CallReply};
ghost use Rattle.mc_answers.specs.Answer.{lined, stores};
ghost use Rattle.mc_answers.specs.Cut.{IsLine};
ghost use Rattle.mc_answered.specs.Reading.{starts_digit, worded_reply, refused_reply, counted_reply, reply_of};
ghost use Rattle.mc_answered.specs.Replies.{kind_may_fail, IsReplyTo, IsSaidLine};

use crate::heading::read_last_number;
use crate::line::is_server_error;
use mc_calls::{CallKind, CallReply};

/// Reads the reply that a line shows.
pub fn read_reply(line: &[u8]) -> Option<CallReply>
    ensures value { result ≡ reply_of line.now }
{
    if starts_digit(line) {
        read_counted(line)
    } else {
        read_worded(line)
    }
}

/// Checks whether a line may say what is said to a call of this kind.
pub fn may_be_said(kind: CallKind, line: &[u8]) -> bool
    requires lined { lined kind ≡ true }
    requires line { IsLine line.now }
    ensures value { (result ≡ true) ↔ IsSaidLine kind line.now }
{
    is_reply_to(kind, line) || (kind_may_fail(kind) && is_server_error(line))
}

// Checks whether a line shows a reply that a call of this kind may get.
fn is_reply_to(kind: CallKind, line: &[u8]) -> bool
    requires lined { lined kind ≡ true }
    ensures value { (result ≡ true) ↔ IsReplyTo kind line.now }
{
    match read_reply(line) {
        Some(reply) => {
            let may = may_say(kind, &reply);
            drop(reply);
            may
        }
        None => false,
    }
}

/// Checks whether a call of this kind may get this reply.
pub(crate) fn may_say(kind: CallKind, reply: &CallReply) -> bool
    ensures value { result ≡ may_say (row_of kind).acts reply.now }
{
    match reply {
        CallReply::Miss | CallReply::Hit { .. } => matches!(kind, CallKind::Get),
        CallReply::Stored => stores(kind),
        CallReply::NotStored => may_not_store(kind),
        CallReply::Exists => matches!(kind, CallKind::Cas),
        CallReply::NotFound => may_not_find(kind),
        CallReply::Deleted => matches!(kind, CallKind::Delete),
        CallReply::Number { .. } | CallReply::NotNumber => matches!(
            kind,
            CallKind::Incr | CallKind::Decr
        ),
        CallReply::TooLarge => matches!(kind, CallKind::Append | CallKind::Prepend),
        CallReply::Flushed => matches!(kind, CallKind::Flush),
        CallReply::Tally { .. } => matches!(kind, CallKind::Tally),
    }
}

/// Checks whether a call of this kind stores a value.
pub fn stores(kind: CallKind) -> bool
    ensures value { result ≡ stores kind }
{
    matches!(
        kind,
        CallKind::Set
            | CallKind::Add
            | CallKind::Replace
            | CallKind::Append
            | CallKind::Prepend
            | CallKind::Cas
    )
}

// Checks whether a call of this kind may get the reply that nothing was stored.
fn may_not_store(kind: CallKind) -> bool
    ensures value { result ≡ may_say (row_of kind).acts CallReply.NotStored }
{
    matches!(
        kind,
        CallKind::Add | CallKind::Replace | CallKind::Append | CallKind::Prepend
    )
}

// Checks whether a call of this kind may get the reply that there is no item.
fn may_not_find(kind: CallKind) -> bool
    ensures value { result ≡ may_say (row_of kind).acts CallReply.NotFound }
{
    matches!(
        kind,
        CallKind::Cas | CallKind::Incr | CallKind::Decr | CallKind::Delete
    )
}

/// Checks whether a call of this kind may fail.
pub(crate) fn kind_may_fail(kind: CallKind) -> bool
    ensures value { result ≡ kind_may_fail kind }
{
    stores(kind) || matches!(kind, CallKind::Incr | CallKind::Decr)
}

// Checks whether a line begins with a digit.
fn starts_digit(line: &[u8]) -> bool
    ensures value { result ≡ starts_digit line.now }
{
    match line {
        [byte, ..] => b'0' <= *byte && *byte <= b'9',
        [] => false,
    }
}

// Reads the reply that a line of letters shows.
fn read_worded(line: &[u8]) -> Option<CallReply>
    ensures value { result ≡ worded_reply line.now }
{
    if line == b"STORED\r\n".as_slice() {
        Some(CallReply::Stored)
    } else if line == b"NOT_STORED\r\n".as_slice() {
        Some(CallReply::NotStored)
    } else if line == b"EXISTS\r\n".as_slice() {
        Some(CallReply::Exists)
    } else if line == b"NOT_FOUND\r\n".as_slice() {
        Some(CallReply::NotFound)
    } else if line == b"DELETED\r\n".as_slice() {
        Some(CallReply::Deleted)
    } else {
        read_refusal(line)
    }
}

// Reads the reply that an error line shows.
fn read_refusal(line: &[u8]) -> Option<CallReply>
    ensures value { result ≡ refused_reply line.now }
{
    if line == b"CLIENT_ERROR cannot increment or decrement non-numeric value\r\n".as_slice() {
        Some(CallReply::NotNumber)
    } else if line == b"SERVER_ERROR object too large for cache\r\n".as_slice() {
        Some(CallReply::TooLarge)
    } else {
        None
    }
}

// Reads the reply that a line of digits shows.
fn read_counted(line: &[u8]) -> Option<CallReply>
    ensures value { result ≡ counted_reply line.now }
{
    match read_last_number(line) {
        Some(number) => Some(CallReply::Number { number }),
        None => None,
    }
}
