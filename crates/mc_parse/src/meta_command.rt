//! The meta command of a line, and of a line with its block.
ghost use Rattle.std.specs.Prelude.{◌≡◌, ◌≤◌, false, length, IfOk, IfErr};
ghost use Rattle.mc_meta.specs.Meta.{meta_line};
ghost use Rattle.mc_parse.specs.declared.command.Command.{Command};
ghost use Rattle.mc_parse.specs.declared.meta.Meta.{Meta};
ghost use Rattle.mc_parse.specs.Words.{line_limit};
ghost use Rattle.mc_parse.specs.MetaAsk.{meta_ask_seen};
ghost use Rattle.mc_parse.specs.Form.{asks, metas, meta_form};
ghost use Rattle.mc_parse.specs.Meaning.{alone_meta, value_meta, value_of, command_for};
ghost use Rattle.mc_parse.specs.Meaning.{block_command_for, large_command_for};

use crate::command::Command;
use crate::error_line::ErrorLine;
use crate::meta::Meta;
use crate::meta_ask::{MetaAsk, read_meta_ask};
use crate::one_call::storing;
use crate::parse::{fault, is_ended, value_of};
use mc_calls::Call;
use mc_meta::Letters;
use std::alloc::Global;
use zy_base::{Blob, NoMemory};

/// Returns the command of a line that is read as a meta command.
pub(crate) fn meta_command(alloc: Global, line: &[u8]) -> Result<Command, NoMemory>
    requires within { length line.now ≤ line_limit }
    ensures value { IfOk result (λ command. command
        ≡ command_for (meta_form line.now (meta_line line.now))) }
{
    match read_meta_ask(line) {
        Ok(ask) => alone_meta(alloc, ask),
        Err(line) => Ok(fault(line)),
    }
}

/// Returns the command of a line that is read as a meta command, with its block.
pub(crate) fn meta_block_command(
    alloc: Global,
    line: &[u8],
    block: Blob,
) -> Result<Command, (Blob, NoMemory)>
    requires within { length line.now ≤ line_limit }
    ensures value { IfOk result (λ command. command
        ≡ block_command_for block (meta_form line.now (meta_line line.now))) }
    ensures returned { IfErr result (λ e. e.0 ≡ block) }
{
    match read_meta_ask(line) {
        Ok(ask) => meta_block(alloc, ask, block),
        Err(line) => {
            drop(block);
            Ok(fault(line))
        }
    }
}

/// Returns the command of a line that is read as a meta command, with a block that is too large.
pub(crate) fn meta_large_command(line: &[u8]) -> Command
    requires within { length line.now ≤ line_limit }
    ensures value { result ≡ large_command_for (meta_form line.now (meta_line line.now)) }
{
    match read_meta_ask(line) {
        Ok(_) => fault(ErrorLine::TooLarge),
        Err(line) => fault(line),
    }
}

// Makes the meta command that asks for this, and has no block.
fn alone_meta(alloc: Global, ask: MetaAsk<'_>) -> Result<Command, NoMemory>
    ensures value { IfOk result (λ command. command ≡ alone_meta (meta_ask_seen ask.entry)) }
{
    match ask {
        MetaAsk::Noop => Ok(Command::Meta { meta: Meta::Noop }),
        MetaAsk::Get { key, flags } => get_command(alloc, key, flags),
        MetaAsk::Delete { key, flags } => delete_command(alloc, key, flags),
        MetaAsk::Store { .. } | MetaAsk::Cas { .. } => Ok(fault(ErrorLine::Unknown)),
    }
}

// Makes a retrieval.
fn get_command(alloc: Global, key: &[u8], flags: Letters) -> Result<Command, NoMemory>
    ensures value { IfOk result (λ command. command ≡ Command.Meta (Meta.Get key.now flags)) }
{
    let key = Blob::copy_of(alloc, key)?;
    Ok(Command::Meta {
        meta: Meta::Get { key, flags },
    })
}

// Makes a deletion.
fn delete_command(alloc: Global, key: &[u8], flags: Letters) -> Result<Command, NoMemory>
    ensures value { IfOk result (λ command. command ≡ Command.Meta (Meta.Delete key.now flags)) }
{
    let key = Blob::copy_of(alloc, key)?;
    Ok(Command::Meta {
        meta: Meta::Delete { key, flags },
    })
}

// Makes the meta command that asks for this, with its block. Its faults are never quiet.
fn meta_block(alloc: Global, ask: MetaAsk<'_>, mut block: Blob) -> Result<Command, (Blob, NoMemory)>
    ensures value { IfOk result (λ command. command
        ≡ block_command_for block (asks (metas (meta_ask_seen ask.entry)) false)) }
    ensures returned { IfErr result (λ e. e.0 ≡ block) }
{
    if !is_ended(&block) {
        drop(block);
        return Ok(fault(ErrorLine::BadChunk));
    }
    if let Err(e) = block.share() {
        return Err((block, e));
    }
    value_meta(alloc, ask, block)
}

// Makes the meta command that asks for this, with the value of a block.
fn value_meta(alloc: Global, ask: MetaAsk<'_>, block: Blob) -> Result<Command, (Blob, NoMemory)>
    ensures value { IfOk result (λ command. command
        ≡ value_meta (meta_ask_seen ask.entry) (value_of block)) }
    ensures returned { IfErr result (λ e. e.0 ≡ block) }
{
    match ask {
        MetaAsk::Store {
            verb,
            key,
            flags,
            marks,
            ..
        } => match copies_of(alloc, key) {
            Ok((key, again)) => {
                let call = storing(verb, again, flags, value_of(block));
                Ok(set_command(key, call, marks))
            }
            Err(e) => Err((block, e)),
        },
        MetaAsk::Cas {
            key,
            flags,
            unique,
            marks,
            ..
        } => match copies_of(alloc, key) {
            Ok((key, again)) => {
                let call = Call::Cas {
                    key: again,
                    flags,
                    unique,
                    value: value_of(block),
                };
                Ok(set_command(key, call, marks))
            }
            Err(e) => Err((block, e)),
        },
        MetaAsk::Noop | MetaAsk::Get { .. } | MetaAsk::Delete { .. } => {
            drop(block);
            Ok(fault(ErrorLine::Unknown))
        }
    }
}

// Makes a storage command.
fn set_command(key: Blob, call: Call, marks: Letters) -> Command
    ensures value { result ≡ Command.Meta (Meta.Set key call marks) }
{
    Command::Meta {
        meta: Meta::Set { key, call, marks },
    }
}

// Makes two copies of a key.
fn copies_of(alloc: Global, key: &[u8]) -> Result<(Blob, Blob), NoMemory>
    ensures value { IfOk result (λ both. both.0 ≡ key.now) }
    ensures again { IfOk result (λ both. both.1 ≡ key.now) }
{
    let copy = Blob::copy_of(alloc, key)?;
    match Blob::copy_of(alloc, key) {
        Ok(again) => Ok((copy, again)),
        Err(e) => {
            drop(copy);
            Err(e)
        }
    }
}
