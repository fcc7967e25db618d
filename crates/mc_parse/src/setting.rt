//! A `set` without its command.
ghost use Rattle.std.specs.Prelude.{◌≡◌, ◌≤◌, false, IfOk, IfErr};
ghost use Rattle.mc_calls.specs.declared.call.Call.TheVariants.{Set};
ghost use Rattle.mc_parse.specs.declared.name.Name.TheVariants as Names;
ghost use Rattle.mc_parse.specs.declared.verb.Verb.TheVariants as Verbs;
ghost use Rattle.mc_parse.specs.Need.{need};
ghost use Rattle.mc_parse.specs.Form.{line_form};
ghost use Rattle.mc_parse.specs.Parsed.{IsParsed, IsStoring};
ghost use Rattle.mc_parse.specs.Meaning.{block_command, block_command_for, IsBlockFor};
ghost use Rattle.mc_parse.specs.Calls.{at_key, IsOnShard};
ghost use Rattle.mc_parse.specs.OneSet.{sets, is_set, set_command, IsSetBy};

use crate::command::Command;
use crate::error_line::ErrorLine;
use crate::name::Name;
use crate::parse::{fault, is_ended, value_of};
use crate::parsed::Parsed;
use crate::shard_call::ShardCall;
use crate::verb::Verb;
use mc_calls::{Call, shard_of};
use zy_base::Blob;

/// A `set`: its call, and whether it is quiet.
#[derive(Drop)]
pub struct OneSet {
    pub next: ShardCall,
    pub quiet: bool,
}

/// Why there is no `set`.
#[derive(Clone, Copy)]
pub enum NoSet {
    /// It is another command.
    Other,
    /// An allocation failed.
    Refused,
}

/// Makes the call of a line with its block that is a `set`, on one of `shards` shards, from what was
/// read of the line. The key is a part of the line, and the value is moved. If it is another
/// command, or allocation fails, the block is handed back.
#[tactic(auto, unfolding(crate::specs::Meaning::block_command, crate::specs::Parsed::IsParsed))]
pub fn one_set(
    line: &Blob,
    parsed: &Parsed,
    block: Blob,
    shards: u32,
) -> Result<OneSet, (Blob, NoSet)>
    requires some { 1 ≤ shards }
    requires parsed { IsParsed line.now parsed.now }
    requires fits { IsBlockFor (need line.now) block }
    ensures value { IfOk result (λ one. IsSetBy shards (block_command line.now block) one.next one.quiet) }
    ensures within { IfOk result (λ one. IsOnShard shards one.next) }
    ensures returned { IfErr result (λ e. e.0 ≡ block) }
    ensures other { IfErr result (λ e. e.1 ≡ NoSet.Other → is_set (block_command line.now block) ≡ false) }
{
    match parsed.name {
        Some(name) => named_set(line, name, parsed, block, shards),
        None => Err((block, NoSet::Other)),
    }
}

// Makes the call of a storage line with this name, if it is a `set`.
#[tactic(auto, using(crate::proofs::OneSetLemmas::set_name, crate::proofs::OneSetLemmas::other_name))]
fn named_set(
    line: &Blob,
    name: Name,
    parsed: &Parsed,
    block: Blob,
    shards: u32,
) -> Result<OneSet, (Blob, NoSet)>
    requires some { 1 ≤ shards }
    requires storing { IsStoring line.now parsed.now name }
    ensures value { IfOk result (λ one. IsSetBy shards (block_command_for block (line_form line.now))
        one.next one.quiet) }
    ensures within { IfOk result (λ one. IsOnShard shards one.next) }
    ensures returned { IfErr result (λ e. e.0 ≡ block) }
    ensures other { IfErr result (λ e. e.1 ≡ NoSet.Other
        → is_set (block_command_for block (line_form line.now)) ≡ false) }
{
    if sets(name) {
        ended_set(line, parsed, block, shards)
    } else {
        Err((block, NoSet::Other))
    }
}

// Checks whether a name is `set`.
fn sets(name: Name) -> bool
    ensures value { result ≡ sets name }
{
    match name {
        Name::Store { verb: Verb::Set } => true,
        _ => false,
    }
}

// Makes the call of a `set`, if its block is ended.
fn ended_set(
    line: &Blob,
    parsed: &Parsed,
    mut block: Blob,
    shards: u32,
) -> Result<OneSet, (Blob, NoSet)>
    requires some { 1 ≤ shards }
    requires storing { IsStoring line.now parsed.now (Names.Store Verbs.Set) }
    ensures value { IfOk result (λ one. IsSetBy shards (block_command_for block (line_form line.now))
        one.next one.quiet) }
    ensures within { IfOk result (λ one. IsOnShard shards one.next) }
    ensures returned { IfErr result (λ e. e.0 ≡ block) }
    ensures other { IfErr result (λ e. e.1 ≡ NoSet.Other
        → is_set (block_command_for block (line_form line.now)) ≡ false) }
{
    if !is_ended(&block) {
        return Err((block, NoSet::Other));
    }
    if block.share().is_err() {
        return Err((block, NoSet::Refused));
    }
    match parsed.key(line) {
        Ok(key) => Ok(set_of(key, parsed.flags, value_of(block), parsed.quiet, shards)),
        Err(_) => Err((block, NoSet::Refused)),
    }
}

// Makes a `set` with its call on the shard of its key.
fn set_of(key: Blob, flags: u32, value: Blob, quiet: bool, shards: u32) -> OneSet
    requires some { 1 ≤ shards }
    ensures next { result.next ≡ at_key shards key (Set key flags value) }
    ensures within { IsOnShard shards result.next }
    ensures quiet { result.quiet ≡ quiet }
{
    let shard = shard_of(key.bytes(), shards);
    OneSet {
        next: ShardCall {
            shard,
            call: Call::Set { key, flags, value },
        },
        quiet,
    }
}

/// Makes the command of a `set` from its call.
pub fn set_command(call: Call, quiet: bool) -> Command
    ensures value { result ≡ set_command call quiet }
{
    match call {
        Call::Set { key, flags, value } => Command::Store {
            verb: Verb::Set,
            key,
            flags,
            value,
            quiet,
        },
        call => {
            drop(call);
            fault(ErrorLine::Unknown)
        }
    }
}
