//! What was said to one call, and the line that shows it.
ghost use Rattle.std.specs.Prelude.{◌≡◌, true, IsSome};
ghost use Rattle.mc_calls.specs.Bounds.{FitsReply};
ghost use Rattle.mc_calls.specs.Code.{reply_code, reply_number};
ghost use Rattle.mc_parse.specs.Saying.{says_reply};
ghost use Rattle.mc_reply.specs.Text.{reply_line};
ghost use Rattle.mc_answers.specs.Answer.{lined, IsReplyLine, IsTextOf};
ghost use Rattle.mc_answers.specs.Kinds.{IsServerError};
ghost use Rattle.mc_answers.specs.Said.{IsOne};
ghost use Rattle.mc_answered.specs.Replies.{stored_kind, counted_kind, reply_kind};
ghost use Rattle.mc_answered.specs.With.{IsFound, MaySayTo};

use crate::line::{is_server_error, line_length};
use crate::reply::{kind_may_fail, may_say, read_reply};
use mc_allows::Said;
use mc_calls::{Call, CallKind, CallReply, Tag, numbers_fit};
use mc_parse::{Command, Verb};

/// Checks whether this may be said to a call of this kind that is no get.
pub(crate) fn may_be_said_to(kind: CallKind, said: &Said) -> bool
    requires lined { lined kind ≡ true }
    ensures value { result ≡ true → MaySayTo kind said.now }
{
    match said {
        Said::Replied { reply } => {
            reply_fits(reply);
            may_say(kind, reply)
        }
        Said::Failed => kind_may_fail(kind),
    }
}

/// Returns the length of the line that shows what was said to a call, if the bytes begin with it.
pub(crate) fn said_line(said: &Said, bytes: &[u8]) -> Option<usize>
    ensures value { IsFound (λ text. IsReplyLine text said.now) bytes.now result }
{
    match said {
        Said::Replied { reply } => reply_line(reply, bytes),
        Said::Failed => failed_line(bytes),
    }
}

/// Returns the kind of the call of a command that is answered by the line of its one reply.
pub fn reply_kind(command: &Command) -> Option<CallKind>
    ensures value { result ≡ reply_kind command.now }
{
    match command {
        Command::Store { verb, .. } => Some(stored_kind(*verb)),
        Command::Cas { .. } => Some(CallKind::Cas),
        Command::Delete { .. } => Some(CallKind::Delete),
        Command::Count { up, .. } => Some(counted_kind(*up)),
        _ => None,
    }
}

// Returns the kind of the call that stores as a verb says.
fn stored_kind(verb: Verb) -> CallKind
    ensures value { result ≡ stored_kind verb }
{
    match verb {
        Verb::Set => CallKind::Set,
        Verb::Add => CallKind::Add,
        Verb::Replace => CallKind::Replace,
        Verb::Append => CallKind::Append,
        Verb::Prepend => CallKind::Prepend,
    }
}

// Returns the kind of the call that counts up or down.
fn counted_kind(up: bool) -> CallKind
    ensures value { result ≡ counted_kind up }
{
    if up { CallKind::Incr } else { CallKind::Decr }
}

/// Returns the length of the answer to a command that makes one call of this kind, if the bytes begin with it.
pub(crate) fn one_answer(kind: CallKind, quiet: bool, saids: &[Said], bytes: &[u8]) -> Option<usize>
    requires lined { lined kind ≡ true }
    ensures said { IsSome result → IsOne (MaySayTo kind) saids.now }
    ensures text { IsFound (IsTextOf (says_reply quiet) saids.now) bytes.now result }
{
    match saids {
        [said] if may_be_said_to(kind, said) => {
            if quiet {
                Some(0)
            } else {
                said_line(said, bytes)
            }
        }
        _ => None,
    }
}

/// Returns the length of the line in which a server names a fault of its own, if the bytes begin with one.
pub(crate) fn failed_line(bytes: &[u8]) -> Option<usize>
    ensures value { IsFound IsServerError bytes.now result }
{
    let Some(length) = line_length(bytes) else {
        return None;
    };
    if is_server_error(&bytes[..length]) {
        Some(length)
    } else {
        None
    }
}

// Returns the length of a reply's line, if the bytes begin with it.
fn reply_line(reply: &CallReply, bytes: &[u8]) -> Option<usize>
    ensures value { IsFound (λ text. text ≡ reply_line reply.now) bytes.now result }
{
    let Some(length) = line_length(bytes) else {
        return None;
    };
    match read_reply(&bytes[..length]) {
        Some(read) => {
            let same = is_same(&read, reply);
            drop(read);
            if same { Some(length) } else { None }
        }
        None => None,
    }
}

// Checks whether two replies have the same code and the same number.
fn is_same(one: &CallReply, other: &CallReply) -> bool
    ensures code { result ≡ true → reply_code one.now ≡ reply_code other.now }
    ensures number { result ≡ true → reply_number one.now ≡ reply_number other.now }
{
    one.code() == other.code() && one.number() == other.number()
}

// Does nothing. Shows in proofs that the numbers of a reply fit their types.
fn reply_fits(reply: &CallReply)
    ensures value { FitsReply reply.now }
{
    let tag = Tag {
        index: 0,
        conn: 0,
        part: 0,
    };
    numbers_fit(tag, &Call::Flush, reply);
}
