//! The next call of a command.
ghost use Rattle.std.specs.Prelude.{◌≡◌, ◌<◌, ◌^◌, length, vec_len, vec_capacity, IfOk, MatchResult};
ghost use Rattle.mc_parse.specs.Calls.{calls_of, get_calls, get_at, tag_of, IsOnShard};
ghost use Rattle.zy_conn.specs.Step.{SamePass, Makes, MakesThis};

use crate::hold_end::HoldEnd;
use mc_calls::{CallReply, Tag, hash_of};
use mc_parse::{Command, ShardCall, call_at, got_keys};
use mc_store::{Fetched, Pass, StoreTable, Tried};
use zy_base::{Blob, COMMAND_LIMIT, NoMemory};

/// The result of the next call of a command.
#[derive(Drop)]
pub(crate) enum Made {
    /// The call was made.
    Call,
    /// No call is left to make.
    Done,
    /// The call was not made.
    Stopped(HoldEnd),
}

/// Makes the next call of a command; the calls before it got these replies. The room for its reply
/// is reserved first. If allocation fails, the call was not made.
pub(crate) fn next_call(
    pass: &mut Pass,
    store: &StoreTable,
    index: u64,
    command: &Command,
    replies: &mut Vec<CallReply>,
) -> Result<Made, NoMemory>
    requires table { pass.old.table ≡ store.now.id }
    ensures pass { SamePass pass.old pass.new }
    ensures call { MatchResult result (Makes index (calls_of store.now.shards command.now)
        replies.old.items pass.old replies.new.items pass.new)
        (λ _. (pass.new.calls ≡ pass.old.calls) × (replies.new.items ≡ replies.old.items)) }
{
    if let Some(keys) = got_keys(command) {
        return next_get(pass, store, index, keys, replies);
    }
    let Some(next) = call_at(command, replies.len(), store.shards())? else {
        return Ok(Made::Done);
    };
    if pass.count() >= COMMAND_LIMIT {
        drop(next);
        return Ok(Made::Stopped(HoldEnd::Spent));
    }
    if replies.reserve(1).is_err() {
        drop(next);
        return Err(NoMemory);
    }
    make_call(pass, store, index, next, replies)
}

// Makes the next get of a retrieval of these keys.
fn next_get(
    pass: &mut Pass,
    store: &StoreTable,
    index: u64,
    keys: &[Blob],
    replies: &mut Vec<CallReply>,
) -> Result<Made, NoMemory>
    requires table { pass.old.table ≡ store.now.id }
    ensures pass { SamePass pass.old pass.new }
    ensures call { MatchResult result (Makes index (get_calls store.now.shards keys.now)
        replies.old.items pass.old replies.new.items pass.new)
        (λ _. (pass.new.calls ≡ pass.old.calls) × (replies.new.items ≡ replies.old.items)) }
{
    let Some(key) = keys.get(replies.len()) else {
        return Ok(Made::Done);
    };
    if pass.count() >= COMMAND_LIMIT {
        return Ok(Made::Stopped(HoldEnd::Spent));
    }
    make_get(pass, store, index, key, replies)
}

/// Makes the get of this key, which is the next call.
pub(crate) fn make_get(
    pass: &mut Pass,
    store: &StoreTable,
    index: u64,
    key: &Blob,
    replies: &mut Vec<CallReply>,
) -> Result<Made, NoMemory>
    requires table { pass.old.table ≡ store.now.id }
    requires few { length pass.old.calls < 2 ^ 40 }
    ensures pass { SamePass pass.old pass.new }
    ensures call { MatchResult result (MakesThis index (get_at store.now.shards key.now)
        replies.old.items pass.old replies.new.items pass.new)
        (λ _. (pass.new.calls ≡ pass.old.calls) × (replies.new.items ≡ replies.old.items)) }
{
    let tag = next_tag(pass, index, replies)?;
    let hash = hash_of(key.bytes());
    let shard = hash % store.shards();
    match store.fetch(pass, tag, shard, key, hash, replies) {
        Ok(Fetched::Made { stamp: _ }) => Ok(Made::Call),
        Ok(
            Fetched::Busy {
                shard,
                loaded,
                found,
            },
        ) => Ok(Made::Stopped(HoldEnd::Busy {
            shard,
            loaded,
            found,
        })),
        Err(e) => Err(e),
    }
}

// Returns the tag of the next call of a command, whose calls before it got these replies.
#[inline(always)]
fn next_tag(pass: &Pass, index: u64, replies: &Vec<CallReply>) -> Result<Tag, NoMemory>
    ensures value { IfOk result (λ tag. tag ≡ tag_of pass.now.conn index (length replies.now.items)) }
{
    match u32::try_from(replies.len()) {
        Ok(part) => Ok(Tag {
            conn: pass.conn(),
            index,
            part,
        }),
        Err(_) => Err(NoMemory),
    }
}

// Makes this call, which is the next one. There is room for its reply.
fn make_call(
    pass: &mut Pass,
    store: &StoreTable,
    index: u64,
    next: ShardCall,
    replies: &mut Vec<CallReply>,
) -> Result<Made, NoMemory>
    requires table { pass.old.table ≡ store.now.id }
    requires within { IsOnShard store.now.shards next }
    requires few { length pass.old.calls < 2 ^ 40 }
    requires room { vec_len replies.old < vec_capacity replies.old }
    ensures pass { SamePass pass.old pass.new }
    ensures call { MatchResult result (MakesThis index next replies.old.items pass.old replies.new.items pass.new)
        (λ _. (pass.new.calls ≡ pass.old.calls) × (replies.new.items ≡ replies.old.items)) }
{
    let tag = match next_tag(pass, index, replies) {
        Ok(tag) => tag,
        Err(e) => {
            drop(next);
            return Err(e);
        }
    };
    let ShardCall { shard, call } = next;
    match store.make_call(pass, tag, shard, call) {
        Ok(Tried::Made { reply, stamp: _ }) => {
            replies.push_reserved(reply);
            Ok(Made::Call)
        }
        Ok(
            Tried::Busy {
                call,
                shard,
                loaded,
                found,
            },
        ) => {
            drop(call);
            Ok(Made::Stopped(HoldEnd::Busy {
                shard,
                loaded,
                found,
            }))
        }
        Err((call, e)) => {
            drop(call);
            Err(e)
        }
    }
}
