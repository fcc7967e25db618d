//! Making a call on a store, as its server chose.
ghost use Rattle.std.specs.Prelude.{◌≡◌, ◌<◌, Some, IfOk, IfSome};
ghost use Rattle.mc_calls.specs.Call.{key_of};
ghost use Rattle.mc_calls.specs.declared.call.Call.TheVariants.{Flush};
ghost use Rattle.zy_confirm.specs.Store.{store_shards, IsOnItsShard, MakesCall};

use crate::choosing::choose;
use crate::outcome::Outcome;
use crate::store::Store;
use mc_allows::Said;
use mc_calls::{Call, CallReply};
use mc_parse::ShardCall;
use std::alloc::Global;
use zy_base::{Blob, NoMemory};
use zy_verdict::Choice;

/// MakesCall a call, and returns what is said to it. If the server has no such choice, or the unique
/// was given before, there is nothing to say.
pub fn make(
    alloc: Global,
    store: &mut Store,
    call: &ShardCall,
    choice: Choice,
    unique: u64,
) -> Result<Option<Said>, NoMemory>
    requires own { IsOnItsShard (store_shards store.old) (key_of call.now.call) call.now.shard }
    requires within { call.now.shard < store_shards store.old }
    ensures made { IfOk result (λ found. IfSome found (λ said. MakesCall store.old store.new call.now said)) }
{
    match call.call.key() {
        Some(key) => make_at(alloc, store, call, key, choice, unique),
        None => Ok(make_flush(store, call)),
    }
}

// MakesCall a call with this key.
fn make_at(
    alloc: Global,
    store: &mut Store,
    call: &ShardCall,
    key: &Blob,
    choice: Choice,
    unique: u64,
) -> Result<Option<Said>, NoMemory>
    requires key { key_of call.now.call ≡ Some key.now }
    requires own { IsOnItsShard (store_shards store.old) (key_of call.now.call) call.now.shard }
    requires within { call.now.shard < store_shards store.old }
    ensures made { IfOk result (λ found. IfSome found (λ said. MakesCall store.old store.new call.now said)) }
{
    let found = store.found(call.shard, key);
    let Some(Outcome { said, after }) = choose(alloc, &call.call, found, choice)? else {
        return Ok(None);
    };
    match store.change(call.shard, key, unique, after) {
        Ok(true) => Ok(Some(said)),
        Ok(false) => {
            drop(said);
            Ok(None)
        }
        Err(refused) => {
            drop(said);
            Err(refused)
        }
    }
}

// MakesCall a call without a key: a flush.
fn make_flush(store: &mut Store, call: &ShardCall) -> Option<Said>
    requires within { call.now.shard < store_shards store.old }
    ensures made { IfSome result (λ said. MakesCall store.old store.new call.now said) }
{
    if !matches!(call.call, Call::Flush) {
        return None;
    }
    store.clear(call.shard);
    Some(Said::Replied {
        reply: CallReply::Flushed,
    })
}
