//! Answers that are cut short.
ghost use Rattle.std.specs.Prelude.{◌≡◌, true, IfOk};
ghost use Rattle.mc_answers.specs.Answer.{IsAnswer};
ghost use Rattle.mc_answers.specs.Output.{BeginsAnswer};

use mc_allows::Said;
use mc_answered::answers_with;
use mc_calls::CallReply;
use mc_parse::Command;
use std::alloc::Global;
use zy_base::{Blob, NoMemory, number_text};

/// Checks whether some bytes are a proper beginning of the answer to a command when this was said to
/// its calls. `false` for some rare beginnings too.
pub(crate) fn begins_answer(
    alloc: Global,
    command: &Command,
    saids: &[Said],
    bytes: &[u8],
) -> Result<bool, NoMemory>
    ensures begins { IfOk result (λ is. is ≡ true → BeginsAnswer command.now saids.now bytes.now) }
{
    let mut whole = Blob::new(alloc);
    let is = whole_begins(alloc, command, saids, bytes, &mut whole);
    drop(whole);
    is
}

// Writes the answer into an empty blob, and checks whether the bytes are a proper beginning of it.
fn whole_begins(
    alloc: Global,
    command: &Command,
    saids: &[Said],
    bytes: &[u8],
    whole: &mut Blob,
) -> Result<bool, NoMemory>
    ensures begins { IfOk result (λ is. is ≡ true → BeginsAnswer command.now saids.now bytes.now) }
{
    write_answer(whole, command, saids, bytes)?;
    is_beginning(alloc, command, saids, bytes, whole.bytes())
}

// Checks whether some bytes are a proper beginning of others, which are the answer.
fn is_beginning(
    alloc: Global,
    command: &Command,
    saids: &[Said],
    bytes: &[u8],
    whole: &[u8],
) -> Result<bool, NoMemory>
    ensures begins { IfOk result (λ is. is ≡ true → BeginsAnswer command.now saids.now bytes.now) }
{
    if whole.len() <= bytes.len() || !whole.starts_with(bytes) {
        return Ok(false);
    }
    is_answer(alloc, command, saids, whole)
}

// Checks whether some bytes are the answer to a command when this was said to its calls.
fn is_answer(
    alloc: Global,
    command: &Command,
    saids: &[Said],
    bytes: &[u8],
) -> Result<bool, NoMemory>
    ensures answer { IfOk result (λ is. is ≡ true → IsAnswer command.now saids.now bytes.now) }
{
    match answers_with(alloc, command, saids, bytes)? {
        Some(length) => Ok(length == bytes.len()),
        None => Ok(false),
    }
}

// Writes the answer to a command, as far as it is known what it may be.
fn write_answer(
    whole: &mut Blob,
    command: &Command,
    saids: &[Said],
    bytes: &[u8],
) -> Result<(), NoMemory> {
    match command {
        Command::Get { keys, unique } => write_items(whole, keys.items(), *unique, saids),
        _ => match saids.get(0) {
            Some(Said::Replied { reply }) => write_reply(whole, reply),
            _ => {
                whole.append(bytes)?;
                whole.append(b"\r\n")
            }
        },
    }
}

// Writes the items that were found, and the end.
fn write_items(
    whole: &mut Blob,
    keys: &[Blob],
    is_asked: bool,
    saids: &[Said],
) -> Result<(), NoMemory> {
    for index in 0..saids.len() {
        if index < keys.len() {
            write_item(whole, &keys[index], is_asked, &saids[index])?;
        }
    }
    whole.append(b"END\r\n")
}

// Writes an item, if it was found.
fn write_item(whole: &mut Blob, key: &Blob, is_asked: bool, said: &Said) -> Result<(), NoMemory> {
    let Said::Replied {
        reply: CallReply::Hit {
            flags,
            unique,
            value,
        },
    } = said
    else {
        return Ok(());
    };
    whole.append(b"VALUE ")?;
    whole.append(key.bytes())?;
    whole.append(b" ")?;
    number_text(whole, *flags as u64)?;
    whole.append(b" ")?;
    number_text(whole, value.bytes().len() as u64)?;
    if is_asked {
        whole.append(b" ")?;
        number_text(whole, *unique)?;
    }
    whole.append(b"\r\n")?;
    whole.append(value.bytes())?;
    whole.append(b"\r\n")
}

// Writes the line of a reply.
fn write_reply(whole: &mut Blob, reply: &CallReply) -> Result<(), NoMemory> {
    match reply {
        CallReply::Stored => whole.append(b"STORED\r\n"),
        CallReply::NotStored => whole.append(b"NOT_STORED\r\n"),
        CallReply::Exists => whole.append(b"EXISTS\r\n"),
        CallReply::NotFound => whole.append(b"NOT_FOUND\r\n"),
        CallReply::Deleted => whole.append(b"DELETED\r\n"),
        CallReply::Flushed => whole.append(b"OK\r\n"),
        CallReply::Number { number } => {
            number_text(whole, *number)?;
            whole.append(b"\r\n")
        }
        _ => Ok(()),
    }
}
