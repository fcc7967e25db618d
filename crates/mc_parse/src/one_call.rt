//! One call of a command, and how it is made.
ghost use Rattle.std.specs.Prelude.{◌≡◌, ◌≤◌, IfOk, IfErr, IfSome, Some, Err, slice_get};
ghost use Rattle.mc_parse.specs.OnAll.{made_by};
ghost use Rattle.mc_calls.specs.declared.call.Call.{Call};
ghost use Rattle.mc_parse.specs.Deed.{stored_by, counted_by, deed_of, meta_deed, IsOnce};
ghost use Rattle.mc_parse.specs.Calls.{calls_of, calls_by, get_calls, calls_on_all, at_key, IsOnShard};

use crate::command::Command;
use crate::meta::Meta;
use crate::on_all::OnAll;
use crate::shard_call::ShardCall;
use crate::verb::Verb;
use mc_calls::{Call, shard_of};
use zy_base::{Blob, NoMemory};

/// Makes the call of a command on `shards` shards that has this number in the list `calls`; `None`
/// if and only if the list has no such call. The call has copies of key and value.
#[tactic(auto, using(crate::proofs::CallLemmas::once_later, crate::proofs::CallLemmas::meta_once))]
pub fn call_at(command: &Command, part: usize, shards: u32) -> Result<Option<ShardCall>, NoMemory>
    requires some { 1 ≤ shards }
    requires limit { shards ≤ 256 }
    ensures value { IfOk result (λ call. call ≡ slice_get (calls_of shards command.now) part) }
    ensures within { IfOk result (λ call. IfSome call (IsOnShard shards)) }
{
    match command {
        Command::Get { keys, .. } => get_at(keys.items(), part, shards),
        Command::Flush { .. } => Ok(on_all_at(OnAll::Flush, part, shards)),
        Command::Stats => Ok(on_all_at(OnAll::Tally, part, shards)),
        _ => {
            if part == 0 {
                only_call(command, shards)
            } else {
                Ok(None)
            }
        }
    }
}

// Makes the call of a command that has at most one.
#[tactic(auto, using(crate::proofs::CallLemmas::stored_first, crate::proofs::CallLemmas::counted_first))]
fn only_call(command: &Command, shards: u32) -> Result<Option<ShardCall>, NoMemory>
    requires some { 1 ≤ shards }
    requires once { IsOnce (deed_of command.now) }
    ensures value { IfOk result (λ call. call ≡ slice_get (calls_of shards command.now) 0) }
    ensures within { IfOk result (λ call. IfSome call (IsOnShard shards)) }
{
    match command {
        Command::Store {
            verb,
            key,
            flags,
            value,
            ..
        } => placed(key, stored_by(*verb, key, *flags, value), shards),
        Command::Cas {
            key,
            flags,
            unique,
            value,
            ..
        } => placed(key, exchanged(key, *flags, *unique, value), shards),
        Command::Delete { key, .. } => placed(key, deleted(key), shards),
        Command::Count {
            key,
            up,
            amount,
            ..
        } => placed(key, counted_by(*up, key, *amount), shards),
        Command::Meta { meta } => meta_call(meta, shards),
        _ => Ok(None),
    }
}

// Makes the call of a meta command.
#[inline(always)]
fn meta_call(meta: &Meta, shards: u32) -> Result<Option<ShardCall>, NoMemory>
    requires some { 1 ≤ shards }
    ensures value { IfOk result (λ call. call ≡ slice_get (calls_by shards (meta_deed meta.now)) 0) }
    ensures within { IfOk result (λ call. IfSome call (IsOnShard shards)) }
{
    match meta {
        Meta::Noop => Ok(None),
        Meta::Get { key, .. } => placed(key, got(key), shards),
        Meta::Set { call, .. } => match call.key() {
            Some(key) => placed(key, call.copy(), shards),
            None => Ok(None),
        },
        Meta::Delete { key, .. } => placed(key, deleted(key), shards),
    }
}

// Makes the call that stores as a verb says.
#[inline(always)]
fn stored_by(verb: Verb, key: &Blob, flags: u32, value: &Blob) -> Result<Call, NoMemory>
    ensures value { IfOk result (λ call. call ≡ stored_by verb key.now flags value.now) }
{
    let key = key.copy()?;
    match value.copy() {
        Ok(value) => Ok(storing(verb, key, flags, value)),
        Err(e) => {
            drop(key);
            Err(e)
        }
    }
}

/// Makes the call that stores this value as a verb says.
pub(crate) fn storing(verb: Verb, key: Blob, flags: u32, value: Blob) -> Call
    ensures value { result ≡ stored_by verb key flags value }
{
    match verb {
        Verb::Set => Call::Set { key, flags, value },
        Verb::Add => Call::Add { key, flags, value },
        Verb::Replace => Call::Replace { key, flags, value },
        Verb::Append => Call::Append { key, value },
        Verb::Prepend => Call::Prepend { key, value },
    }
}

// Makes the call that stores if the item has this unique.
#[inline(always)]
fn exchanged(key: &Blob, flags: u32, unique: u64, value: &Blob) -> Result<Call, NoMemory>
    ensures value { IfOk result (λ call. call ≡ Call.Cas flags key.now unique value.now) }
{
    let key = key.copy()?;
    match value.copy() {
        Ok(value) => Ok(Call::Cas {
            key,
            flags,
            unique,
            value,
        }),
        Err(e) => {
            drop(key);
            Err(e)
        }
    }
}

// Makes the call that gets the item.
fn got(key: &Blob) -> Result<Call, NoMemory>
    ensures value { IfOk result (λ call. call ≡ Call.Get key.now) }
{
    let key = key.copy()?;
    Ok(Call::Get { key })
}

// Makes the call that removes the item.
fn deleted(key: &Blob) -> Result<Call, NoMemory>
    ensures value { IfOk result (λ call. call ≡ Call.Delete key.now) }
{
    let key = key.copy()?;
    Ok(Call::Delete { key })
}

// Makes the call that counts up or down.
fn counted_by(up: bool, key: &Blob, amount: u64) -> Result<Call, NoMemory>
    ensures value { IfOk result (λ call. call ≡ counted_by up key.now amount) }
{
    let key = key.copy()?;
    if up {
        Ok(Call::Incr { key, amount })
    } else {
        Ok(Call::Decr { key, amount })
    }
}

// Places the one call of a command on the shard of its key.
fn placed(
    key: &Blob,
    made: Result<Call, NoMemory>,
    shards: u32,
) -> Result<Option<ShardCall>, NoMemory>
    requires some { 1 ≤ shards }
    ensures value { IfOk made (λ call. IfOk result (λ one. one ≡ Some (at_key shards key.now call))) }
    ensures refused { IfErr made (λ e. result ≡ Err e) }
    ensures within { IfOk result (λ call. IfSome call (IsOnShard shards)) }
{
    match made {
        Ok(call) => Ok(Some(ShardCall {
            shard: shard_of(key.bytes(), shards),
            call,
        })),
        Err(e) => Err(e),
    }
}

// Makes the get of the key with this number.
#[inline(always)]
#[tactic(auto, using(crate::proofs::CallLemmas::get_there))]
fn get_at(keys: &[Blob], part: usize, shards: u32) -> Result<Option<ShardCall>, NoMemory>
    requires some { 1 ≤ shards }
    ensures value { IfOk result (λ call. call ≡ slice_get (get_calls shards keys.now) part) }
    ensures within { IfOk result (λ call. IfSome call (IsOnShard shards)) }
{
    let Some(key) = keys.get(part) else {
        return Ok(None);
    };
    let shard = shard_of(key.bytes(), shards);
    let key = key.copy()?;
    Ok(Some(ShardCall {
        shard,
        call: Call::Get { key },
    }))
}

// Makes the call that goes to all shards, for the shard with this number.
#[tactic(auto, using(crate::proofs::CallLemmas::on_all_there, crate::proofs::CallLemmas::on_all_past))]
fn on_all_at(made: OnAll, part: usize, shards: u32) -> Option<ShardCall>
    ensures value { result ≡ slice_get (calls_on_all (made_by made) shards) part }
    ensures within { IfSome result (IsOnShard shards) }
{
    if part < shards as usize {
        Some(ShardCall {
            shard: part as u32,
            call: made.call(),
        })
    } else {
        None
    }
}
