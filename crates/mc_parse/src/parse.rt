//! The command of a line, and of a line with its block.
ghost use Rattle.std.specs.Prelude.{◌≡◌, ◌≤◌, ℕ, true, [], ◌∷◌, ◌++◌, length, IfOk, IfErr, OnOk};
ghost use Rattle.std.specs.List.{list_all};
ghost use Rattle.zy_base.specs.Rest.{IsRestOf};
ghost use Rattle.mc_parse.specs.declared.need.Need.{Need};
ghost use Rattle.mc_parse.specs.declared.command.Command.{Command};
ghost use Rattle.mc_parse.specs.Words.{words, line_limit};
ghost use Rattle.mc_parse.specs.Need.{need};
ghost use Rattle.mc_parse.specs.declared.name.Name.TheVariants as Names;
ghost use Rattle.mc_parse.specs.Form.{is_key, form_after, line_form, ask_seen};
ghost use Rattle.mc_parse.specs.Line.{form_seen, retrieval};
ghost use Rattle.mc_parse.specs.Parsed.{IsParsed, IsStoring, stored_ask};
ghost use Rattle.mc_parse.specs.Meaning.{line_command, block_command, large_command, IsBlockFor, IsTooLarge};
ghost use Rattle.mc_parse.specs.Meaning.{alone_command, value_command, command_for, block_command_for};
ghost use Rattle.mc_parse.specs.Meaning.{large_command_for, fault, is_ended, value_of};

use crate::asking::Ask;
use crate::command::{Command, Keys};
use crate::error_line::ErrorLine;
use crate::line::Line;
use crate::meta_command::{meta_block_command, meta_command, meta_large_command};
use crate::name::Name;
use crate::need::read_need;
use crate::parsed::Parsed;
use crate::reading::{name_in, read_after};
use crate::word::{Split, next_word};
use mc_meta::is_key;
use std::alloc::Global;
use std::mem;
use zy_base::{Blob, NoMemory};

/// Parses a line that needs nothing. The line is given without the bytes that end it. A faulty line
/// is a command too.
pub fn parse_line(alloc: Global, line: &Blob) -> Result<Command, NoMemory>
    requires within { length line.now ≤ line_limit }
    requires alone { need line.now ≡ Need.Nothing }
    ensures value { IfOk result (λ command. command ≡ line_command line.now) }
{
    let mut parsed = Parsed::nothing();
    read_need(line.bytes(), &mut parsed);
    parse_read(alloc, line, &parsed)
}

/// Parses a line that needs a block, with its block: the value, and the two bytes that must end it.
/// The value is moved. If allocation fails the block is handed back.
pub fn parse_block(alloc: Global, line: &Blob, block: Blob) -> Result<Command, (Blob, NoMemory)>
    requires within { length line.now ≤ line_limit }
    requires fits { IsBlockFor (need line.now) block }
    ensures value { IfOk result (λ command. command ≡ block_command line.now block) }
    ensures returned { IfErr result (λ e. e.0 ≡ block) }
{
    let mut parsed = Parsed::nothing();
    read_need(line.bytes(), &mut parsed);
    parse_read_block(alloc, line, &parsed, block)
}

/// Makes the command of a line that needs nothing, from what was read of it. The keys of a
/// retrieval are parts of the line.
pub fn parse_read(alloc: Global, line: &Blob, parsed: &Parsed) -> Result<Command, NoMemory>
    requires within { length line.now ≤ line_limit }
    requires parsed { IsParsed line.now parsed.now }
    requires alone { need line.now ≡ Need.Nothing }
    ensures value { IfOk result (λ command. command ≡ line_command line.now) }
{
    let mut room = Vec::new(alloc);
    let command = parse_read_in(alloc, line, parsed, &mut room);
    drop(room);
    command
}

/// Makes the same command as `parse_read`; a retrieval takes this room for the list of its keys.
#[tactic(auto, unfolding(crate::specs::Meaning::line_command, crate::specs::Parsed::IsParsed), using(zy_base::proofs::RestLemmas::rest_after))]
pub fn parse_read_in(
    alloc: Global,
    line: &Blob,
    parsed: &Parsed,
    room: &mut Vec<Blob>,
) -> Result<Command, NoMemory>
    requires within { length line.now ≤ line_limit }
    requires parsed { IsParsed line.now parsed.now }
    requires alone { need line.now ≡ Need.Nothing }
    requires empty { room.old.items ≡ [] }
    ensures value { IfOk result (λ command. command ≡ line_command line.now) }
    ensures room { room.new.items ≡ [] }
{
    match parsed.name {
        Some(name) => named_command(alloc, name, line, parsed.text(line.bytes()), room),
        None => meta_command(alloc, line.bytes()),
    }
}

/// Makes the command of a line with its block, from what was read of the line. The key is a part of
/// the line. If allocation fails the block is handed back.
#[tactic(auto, unfolding(crate::specs::Meaning::block_command, crate::specs::Parsed::IsParsed))]
pub fn parse_read_block(
    alloc: Global,
    line: &Blob,
    parsed: &Parsed,
    block: Blob,
) -> Result<Command, (Blob, NoMemory)>
    requires within { length line.now ≤ line_limit }
    requires parsed { IsParsed line.now parsed.now }
    requires fits { IsBlockFor (need line.now) block }
    ensures value { IfOk result (λ command. command ≡ block_command line.now block) }
    ensures returned { IfErr result (λ e. e.0 ≡ block) }
{
    match parsed.name {
        Some(name) => storage_command(name, line, parsed, block),
        None => meta_block_command(alloc, line.bytes(), block),
    }
}

/// Parses a line that needs a block whose value is over the limit, whatever the block contains.
/// Takes no memory.
#[tactic(auto, unfolding(crate::specs::Meaning::large_command))]
pub fn parse_large(line: &[u8]) -> Command
    requires within { length line.now ≤ line_limit }
    requires large { IsTooLarge (need line.now) }
    ensures value { result ≡ large_command line.now }
{
    match name_in(line) {
        Some(found) => large_command_for(read_after(found.name, found.rest)),
        None => meta_large_command(line),
    }
}

// Makes the command of a name and the text after it, which ends the line.
fn named_command(
    alloc: Global,
    name: Name,
    line: &Blob,
    text: &[u8],
    room: &mut Vec<Blob>,
) -> Result<Command, NoMemory>
    requires rest { IsRestOf text.now line.now }
    requires empty { room.old.items ≡ [] }
    ensures value { IfOk result (λ command. command ≡ command_for (form_after name (words text.now))) }
    ensures room { room.new.items ≡ [] }
{
    match name {
        Name::Get { unique } => get_command(alloc, line, text, unique, room),
        _ => command_for(alloc, read_after(name, text)),
    }
}

// Makes the command of a parsed line.
fn command_for(alloc: Global, line: Line<'_>) -> Result<Command, NoMemory>
    ensures value { IfOk result (λ command. command ≡ command_for (form_seen line.entry)) }
{
    match line {
        Line::Fault(line) => Ok(fault(line)),
        Line::Asks { ask, quiet } => alone_command(alloc, ask, quiet),
    }
}

// Makes the command that asks for this, and has no block.
fn alone_command(alloc: Global, ask: Ask<'_>, quiet: bool) -> Result<Command, NoMemory>
    ensures value { IfOk result (λ command. command ≡ alone_command (ask_seen ask.entry) quiet) }
{
    match ask {
        Ask::Delete { key } => delete_command(alloc, key, quiet),
        Ask::Count { key, up, amount } => count_command(alloc, key, up, amount, quiet),
        Ask::Version => Ok(Command::Version),
        Ask::Stats => Ok(Command::Stats),
        Ask::Verbosity => Ok(Command::Verbosity { quiet }),
        Ask::Flush => Ok(Command::Flush { quiet }),
        Ask::Store { .. } | Ask::Cas { .. } | Ask::Quit => Ok(fault(ErrorLine::Unknown)),
    }
}

// Makes a retrieval of the words of the text that ends the line, at least one. A
// word that is too long for a key is found while the words are taken.
#[tactic(auto, using(crate::proofs::GetLemmas::gets_keys, crate::proofs::GetLemmas::gets_long))]
fn get_command(
    alloc: Global,
    line: &Blob,
    text: &[u8],
    unique: bool,
    room: &mut Vec<Blob>,
) -> Result<Command, NoMemory>
    requires rest { IsRestOf text.now line.now }
    requires empty { room.old.items ≡ [] }
    ensures value { IfOk result (λ command. command
        ≡ command_for (form_after (Names.Get unique) (words text.now))) }
    ensures room { room.new.items ≡ [] }
{
    let mut keys = Keys::from_vec(mem::replace(room, Vec::new(alloc)));
    match take_keys(line, &mut keys, text) {
        Ok(true) => Ok(retrieval(keys, unique)),
        Ok(false) => {
            drop(keys);
            Ok(fault(ErrorLine::BadLine))
        }
        Err(e) => {
            drop(keys);
            Err(e)
        }
    }
}

// Makes a retrieval of these keys, of which there must be one.
#[tactic(auto, using(crate::proofs::GetLemmas::retrieval_none, crate::proofs::GetLemmas::retrieval_some))]
fn retrieval(keys: Keys, unique: bool) -> Command
    ensures value { result ≡ retrieval keys unique }
{
    if keys.items().is_empty() {
        drop(keys);
        fault(ErrorLine::Unknown)
    } else {
        Command::Get { keys, unique }
    }
}

// Makes a deletion.
fn delete_command(alloc: Global, key: &[u8], quiet: bool) -> Result<Command, NoMemory>
    ensures value { IfOk result (λ command. command ≡ Command.Delete key.now quiet) }
{
    let key = Blob::shared_copy_of(alloc, key)?;
    Ok(Command::Delete { key, quiet })
}

// Makes a count by an amount.
fn count_command(
    alloc: Global,
    key: &[u8],
    up: bool,
    amount: u64,
    quiet: bool,
) -> Result<Command, NoMemory>
    ensures value { IfOk result (λ command. command ≡ Command.Count key.now up amount quiet) }
{
    let key = Blob::shared_copy_of(alloc, key)?;
    Ok(Command::Count {
        key,
        up,
        amount,
        quiet,
    })
}

// Makes a storage command from what was read of its line, with its block. The copies of the
// value share the block's bytes.
fn storage_command(
    name: Name,
    line: &Blob,
    parsed: &Parsed,
    mut block: Blob,
) -> Result<Command, (Blob, NoMemory)>
    requires storing { IsStoring line.now parsed.now name }
    ensures value { IfOk result (λ command. command ≡ block_command_for block (line_form line.now)) }
    ensures returned { IfErr result (λ e. e.0 ≡ block) }
{
    if !is_ended(&block) {
        drop(block);
        return Ok(block_fault(ErrorLine::BadChunk, parsed.quiet));
    }
    if let Err(e) = block.share() {
        return Err((block, e));
    }
    match parsed.key(line) {
        Ok(key) => Ok(stored_command(name, parsed, key, value_of(block))),
        Err(e) => Err((block, e)),
    }
}

// Makes the storage command of which this was read, with its key and its value.
fn stored_command(name: Name, parsed: &Parsed, key: Blob, value: Blob) -> Command
    ensures value { (bytes : ℕ) → result ≡ value_command
        (stored_ask name key parsed.now.flags bytes parsed.now.unique) parsed.now.quiet value }
{
    match name {
        Name::Store { verb } => Command::Store {
            verb,
            key,
            flags: parsed.flags,
            value,
            quiet: parsed.quiet,
        },
        _ => Command::Cas {
            key,
            flags: parsed.flags,
            unique: parsed.unique,
            value,
            quiet: parsed.quiet,
        },
    }
}

// Makes the command of a parsed line with a block that is too large.
fn large_command_for(line: Line<'_>) -> Command
    ensures value { result ≡ large_command_for (form_seen line.entry) }
{
    match line {
        Line::Fault(line) => fault(line),
        Line::Asks { quiet, .. } => block_fault(ErrorLine::TooLarge, quiet),
    }
}

// Makes the fault of a line or of a meta command, which is never quiet.
pub(crate) fn fault(line: ErrorLine) -> Command
    ensures value { result ≡ fault line }
{
    Command::Fault { line, quiet: false }
}

// Makes the fault of a block, which is quiet if its line is.
fn block_fault(line: ErrorLine, quiet: bool) -> Command
    ensures value { result ≡ Command.Fault line quiet }
{
    Command::Fault { line, quiet }
}

// Checks whether a block ends in the two bytes that must end it.
pub(crate) fn is_ended(block: &Blob) -> bool
    ensures value { result ≡ is_ended block.now }
{
    let bytes = block.bytes();
    &bytes[bytes.len().saturating_sub(2)..] == b"\r\n".as_slice()
}

// Returns the value in a block, moved out of it.
pub(crate) fn value_of(mut block: Blob) -> Blob
    ensures value { result ≡ value_of block }
{
    let len = block.bytes().len().saturating_sub(2);
    block.truncate(len);
    block
}

// Appends the words of the text that ends a line as keys, up to one that is too long for a key;
// `false` if there is one.
fn take_keys(line: &Blob, keys: &mut Keys, text: &[u8]) -> Result<bool, NoMemory>
    requires rest { IsRestOf text.now line.now }
    ensures value { IfOk result (λ are. are ≡ list_all is_key (words text.now)) }
    ensures ok { IfOk result (λ are. are ≡ true → keys.new ≡ keys.old ++ words text.now) }
{
    let mut rest = text;
    while let Some(split) = next_word(rest) {
        if !is_key(split.word) {
            return Ok(false);
        }
        take_key(line, keys, split)?;
        rest = split.rest;
    }
    Ok(true)
}

// Appends a word of a line as a key, which is a part of the line.
fn take_key(line: &Blob, keys: &mut Keys, split: Split<'_>) -> Result<(), NoMemory>
    requires rest { IsRestOf (split.word.now ++ split.rest.now) line.now }
    ensures ok { OnOk result (keys.new ≡ keys.old ++ split.entry.word.now ∷ []) }
{
    let key = word_in(line, split)?;
    match keys.push(key) {
        Ok(()) => Ok(()),
        Err((key, e)) => {
            drop(key);
            Err(e)
        }
    }
}

// Returns a word of a line, which is a part of the line.
#[tactic(auto, using(crate::proofs::ParsedLemmas::word_within, zy_base::proofs::RestLemmas::rest_word))]
pub(crate) fn word_in(line: &Blob, split: Split<'_>) -> Result<Blob, NoMemory>
    requires rest { IsRestOf (split.word.now ++ split.rest.now) line.now }
    ensures value { IfOk result (λ word. word ≡ split.entry.word.now) }
{
    let end = line.bytes().len() - split.rest.len();
    line.part(end - split.word.len(), end)
}
