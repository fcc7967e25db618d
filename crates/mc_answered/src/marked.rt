//! The answers to `mg`, `ms` and `md`.
ghost use Rattle.std.specs.Prelude.{◌≡◌, ◌++◌, true, [], ◌∷◌, IfOk, OnOk};
ghost use Rattle.mc_parse.specs.declared.command.Command.TheVariants as Commands;
ghost use Rattle.mc_parse.specs.declared.meta.Meta.TheVariants as Metas;
ghost use Rattle.mc_reply.specs.Answers.{AnswerCommand};
ghost use Rattle.mc_reply.specs.Text.{text};
ghost use Rattle.mc_answers.specs.Answer.{IsAnswer};
ghost use Rattle.mc_answers.specs.Kinds.{IsMissLine};
ghost use Rattle.mc_answers.specs.Said.{FitsCommand};
ghost use Rattle.mc_answered.specs.Marked.{IsLoud};
ghost use Rattle.mc_answered.specs.With.{IsFound};

use crate::item::value_length;
use crate::listing::is_got;
use crate::one::{failed_line, may_be_said_to};
use crate::reply::stores;
use crate::text::after_front;
use mc_allows::Said;
use mc_calls::{CallKind, CallReply, Replies};
use mc_parse::{Command, Meta};
use mc_reply::reply_text;
use std::alloc::Global;
use zy_base::{Blob, NoMemory};

/// Returns the length of the answer to a meta command about a key, if the bytes begin with it and no flag hides it.
pub(crate) fn meta_length(
    alloc: Global,
    command: &Command,
    meta: &Meta,
    saids: &[Said],
    bytes: &[u8],
) -> Result<Option<usize>, NoMemory>
    requires same { command.now ≡ Commands.Meta meta.now }
    ensures value { IfOk result (IsFound (IsAnswer command.now saids.now) bytes.now) }
{
    match saids {
        [said] if is_loud(meta) && may_be_said(meta, said) => {
            said_length(alloc, command, meta, said, bytes)
        }
        _ => Ok(None),
    }
}

// Checks whether no flag hides an answer.
fn is_loud(meta: &Meta) -> bool
    ensures value { result ≡ true → IsLoud meta.now }
{
    match meta {
        Meta::Noop => false,
        Meta::Get { flags, .. } => !flags.has(b'q'),
        Meta::Set { call, marks, .. } => !marks.has(b'q') && stores(call.kind()),
        Meta::Delete { flags, .. } => !flags.has(b'q'),
    }
}

// Checks whether this may be said to the call of a meta command.
fn may_be_said(meta: &Meta, said: &Said) -> bool
    requires loud { IsLoud meta.now }
    ensures value { result ≡ true → FitsCommand (Commands.Meta meta.now) (said.now ∷ []) }
{
    match meta {
        Meta::Noop => false,
        Meta::Get { .. } => is_got(said),
        Meta::Set { call, .. } => may_be_said_to(call.kind(), said),
        Meta::Delete { .. } => may_be_said_to(CallKind::Delete, said),
    }
}

// Returns the length of the answer that shows what was said, if the bytes begin with it.
fn said_length(
    alloc: Global,
    command: &Command,
    meta: &Meta,
    said: &Said,
    bytes: &[u8],
) -> Result<Option<usize>, NoMemory>
    requires same { command.now ≡ Commands.Meta meta.now }
    requires loud { IsLoud meta.now }
    requires may { FitsCommand (Commands.Meta meta.now) (said.now ∷ []) }
    ensures value { IfOk result (IsFound (IsAnswer command.now (said.now ∷ [])) bytes.now) }
{
    match said {
        Said::Replied { reply } => match (meta, reply) {
            (Meta::Get { key, .. }, CallReply::Miss) => Ok(miss_length(key.bytes(), bytes)),
            _ => written_length(alloc, command, reply, bytes),
        },
        Said::Failed => Ok(failed_line(bytes)),
    }
}

// Returns the length of the line that says that a key has no item, if the bytes begin with it.
fn miss_length(key: &[u8], bytes: &[u8]) -> Option<usize>
    ensures value { IsFound (IsMissLine key.now) bytes.now result }
{
    if bytes.starts_with(b"EN\r\n") {
        return Some(4);
    }
    let Some(rest) = after_front(bytes, b"EN k") else {
        return None;
    };
    match value_length(rest, key) {
        Some(length) => Some(4 + length),
        None => None,
    }
}

// Returns the length of the text of a reply, if the bytes begin with it.
fn written_length(
    alloc: Global,
    command: &Command,
    reply: &CallReply,
    bytes: &[u8],
) -> Result<Option<usize>, NoMemory>
    requires answers { AnswerCommand command.now (reply.now ∷ []) }
    ensures value { IfOk result (IsFound (λ found. found ≡ text command.now (reply.now ∷ [])) bytes.now) }
{
    let mut out = Blob::new(alloc);
    match write_reply(alloc, &mut out, command, reply) {
        Ok(()) => {
            let found = begun_length(out.bytes(), bytes);
            drop(out);
            Ok(found)
        }
        Err(refused) => {
            drop(out);
            Err(refused)
        }
    }
}

// Appends the text of a reply. May answer `NoMemory`.
fn write_reply(
    alloc: Global,
    out: &mut Blob,
    command: &Command,
    reply: &CallReply,
) -> Result<(), NoMemory>
    requires answers { AnswerCommand command.now (reply.now ∷ []) }
    ensures ok { OnOk result (out.new ≡ out.old ++ text command.now (reply.now ∷ [])) }
{
    let replies = only_reply(alloc, reply)?;
    let written = reply_text(out, command, &replies);
    drop(replies);
    written
}

// Makes the list of a copy of a reply. May answer `NoMemory`.
fn only_reply(alloc: Global, reply: &CallReply) -> Result<Replies, NoMemory>
    ensures value { IfOk result (λ replies. replies ≡ reply.now ∷ []) }
{
    let copy = reply.copy()?;
    let mut replies = Replies::new(alloc);
    match replies.push(copy) {
        Ok(()) => Ok(replies),
        Err((copy, refused)) => {
            drop(copy);
            drop(replies);
            Err(refused)
        }
    }
}

// Returns the length of a text, if the bytes begin with it.
fn begun_length(text: &[u8], bytes: &[u8]) -> Option<usize>
    ensures value { IsFound (λ found. found ≡ text.now) bytes.now result }
{
    if bytes.starts_with(text) {
        Some(text.len())
    } else {
        None
    }
}
