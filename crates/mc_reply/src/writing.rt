//! The text that answers a command.
ghost use Rattle.std.specs.Prelude.{◌≡◌, ◌≤◌, ◌+◌, ℕ, List, [], ◌∷◌, ◌++◌, length, codes, decimal, OnOk, OnErr};
ghost use Rattle.mc_calls.specs.declared.call.Call.TheVariants.{Set as SetCall};
ghost use Rattle.mc_calls.specs.declared.call_reply.CallReply.{CallReply};
ghost use Rattle.mc_calls.specs.Kind.{MayAnswer};
ghost use Rattle.mc_parse.specs.declared.command.Command.TheVariants.{Get, Store};
ghost use Rattle.mc_parse.specs.declared.verb.Verb.TheVariants.{Set};
ghost use Rattle.mc_reply.specs.Text.{text, line, item_text, items_text};
ghost use Rattle.mc_reply.specs.Answers.{AnswerCommand};
ghost use Rattle.mc_reply.specs.Shape.{answer_text};

use crate::answer::Answer;
use crate::answering::{fault_answer, only_answer, unless};
use crate::item::put_item;
use crate::length::{item_room, items_room};
use crate::lines::{self, END, LINE_END};
use crate::meta_answer::append_meta;
use crate::stats::append_stats;
use mc_calls::{CallReply, Replies};
use mc_parse::Command;
use std::mem;
use zy_base::{Blob, NoMemory, Reserved, number_text};

/// Appends the text that answers a command with these replies: nothing if the command asks for no
/// answer. May answer `NoMemory`.
#[tactic(auto, unfolding(crate::specs::Text::text))]
pub fn reply_text(out: &mut Blob, command: &Command, replies: &Replies) -> Result<(), NoMemory>
    requires answers { AnswerCommand command.now replies.now }
    ensures ok { OnOk result (out.new ≡ out.old ++ text command.now replies.now) }
    ensures err { OnErr result (out.new ≡ out.old) }
{
    let replies = replies.items();
    match command {
        Command::Get { keys, unique } => append_items(out, *unique, keys.items(), replies),
        Command::Stats => append_stats(out, replies),
        Command::Meta { meta } => append_meta(out, meta, replies),
        Command::Version => append_answer(out, Answer::Line(lines::VERSION)),
        Command::Verbosity { quiet } | Command::Flush { quiet } => {
            append_answer(out, unless(*quiet, Answer::Line(lines::OK)))
        }
        Command::Fault { line, quiet } => append_answer(out, unless(*quiet, fault_answer(*line))),
        _ => append_answer(out, unless(command.is_quiet(), only_answer(replies))),
    }
}

/// Returns the text that answers a `set`: nothing if it is quiet.
#[tactic(auto, using(crate::proofs::SetLemmas::set_said))]
pub fn set_text(quiet: bool) -> &'static [u8]
    ensures value { (key value : List ℕ) (flags : ℕ) (reply : CallReply) → MayAnswer (SetCall key flags value) reply
        → result.now ≡ text (Store Set key flags value quiet) (reply ∷ []) }
{
    if quiet { b"".as_slice() } else { lines::STORED }
}

/// Appends the text that answers a retrieval of one key with this reply. May answer `NoMemory`.
#[tactic(auto, unfolding(crate::specs::Text::text))]
pub fn got_text(out: &mut Blob, key: &Blob, unique: bool, reply: &CallReply) -> Result<(), NoMemory>
    ensures ok { OnOk result (out.new ≡ out.old ++ text (Get (key.now ∷ []) unique) (reply.now ∷ [])) }
    ensures err { OnErr result (out.new ≡ out.old) }
{
    match reply {
        CallReply::Hit { .. } => append_item(out, unique, key, reply),
        _ => out.append(END),
    }
}

// Appends the text of one key, and the end.
fn append_item(out: &mut Blob, asked: bool, key: &Blob, reply: &CallReply) -> Result<(), NoMemory>
    ensures ok { OnOk result (out.new ≡ out.old ++ (item_text asked key.now reply.now ++ line (codes "END"))) }
    ensures err { OnErr result (out.new ≡ out.old) }
{
    let Some(item) = item_room(key, reply) else {
        return Err(NoMemory);
    };
    let Some(more) = item.checked_add(END.len()) else {
        return Err(NoMemory);
    };
    let mut reserved = out.reserve(more)?;
    put_item(&mut reserved, asked, key, reply);
    reserved.append(END);
    drop(mem::replace(out, reserved.into_blob()));
    Ok(())
}

// Appends an answer.
fn append_answer(out: &mut Blob, answer: Answer) -> Result<(), NoMemory>
    ensures ok { OnOk result (out.new ≡ out.old ++ answer_text answer) }
    ensures err { OnErr result (out.new ≡ out.old) }
{
    match answer {
        Answer::Nothing => Ok(()),
        Answer::Line(line) => out.append(line),
        Answer::Number(number) => append_number(out, number),
    }
}

// Appends a number as a line.
fn append_number(out: &mut Blob, number: u64) -> Result<(), NoMemory>
    ensures ok { OnOk result (out.new ≡ out.old ++ line (decimal number)) }
    ensures err { OnErr result (out.new ≡ out.old) }
{
    let length = out.bytes().len();
    number_text(out, number)?;
    match out.append(LINE_END) {
        Ok(()) => Ok(()),
        Err(e) => {
            out.truncate(length);
            Err(e)
        }
    }
}

// Appends the items that were found, and the end. Room for all of them is reserved once, at the start.
fn append_items(
    out: &mut Blob,
    asked: bool,
    keys: &[Blob],
    replies: &[CallReply],
) -> Result<(), NoMemory>
    requires same { length keys.now ≡ length replies.now }
    ensures ok { OnOk result (out.new
        ≡ out.old ++ (items_text asked keys.now replies.now ++ line (codes "END"))) }
    ensures err { OnErr result (out.new ≡ out.old) }
{
    let Some(items) = items_room(keys, replies) else {
        return Err(NoMemory);
    };
    let Some(more) = items.checked_add(END.len()) else {
        return Err(NoMemory);
    };
    let mut reserved = out.reserve(more)?;
    put_items(&mut reserved, asked, keys, replies);
    reserved.append(END);
    drop(mem::replace(out, reserved.into_blob()));
    Ok(())
}

// Appends the items that were found.
fn put_items(out: &mut Reserved, asked: bool, keys: &[Blob], replies: &[CallReply])
    requires same { length keys.now ≡ length replies.now }
    requires fits { length (items_text asked keys.now replies.now) ≤ out.old.room }
    ensures value { out.new.bytes ≡ out.old.bytes ++ items_text asked keys.now replies.now }
    ensures room { out.old.room ≤ out.new.room + length (items_text asked keys.now replies.now) }
{
    for at in 0..keys.len() {
        put_item(out, asked, &keys[at], &replies[at]);
    }
}
