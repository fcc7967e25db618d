//! Copies of entries whose parts are lent.
ghost use Rattle.std.specs.Prelude.{◌≡◌, IfOk};
ghost use Rattle.mc_calls.specs.declared.call.Call.TheVariants.{Get, Set};
ghost use Rattle.mc_history.specs.Compact.{exchange, set_of, hit_of, miss_of};

use crate::entry_ref::{EntryRef, ExchangeRef};
use crate::exchange::Exchange;
use crate::stored_item::StoredItem;
use mc_calls::{Call, CallReply, Entry};
use zy_base::{Blob, NoMemory};

impl<'a> EntryRef<'a> {
    /// Copies the entry. Takes no memory if its bytes are shared.
    pub fn copy(&self) -> Result<Entry, NoMemory>
        ensures value { IfOk result (λ copy. copy ≡ self.now) }
    {
        let tag = self.tag;
        let shard = self.shard;
        let stamp = self.stamp;
        match self.copied() {
            Ok(Exchange { call, reply }) => Ok(Entry {
                tag,
                shard,
                call,
                reply,
                stamp,
            }),
            Err(refused) => Err(refused),
        }
    }

    // Copies the call with its reply.
    pub(crate) fn copied(&self) -> Result<Exchange, NoMemory>
        ensures call { IfOk result (λ copy. copy.call ≡ self.now.call) }
        ensures reply { IfOk result (λ copy. copy.reply ≡ self.now.reply) }
    {
        match self.exchange {
            ExchangeRef::Set(stored) => copied_set(stored),
            ExchangeRef::Hit(stored) => copied_hit(stored),
            ExchangeRef::Miss(key) => copied_miss(key),
            ExchangeRef::Other(call, reply) => copied_other(call, reply),
        }
    }
}

fn copied_set(stored: &StoredItem) -> Result<Exchange, NoMemory>
    ensures value { IfOk result (λ copy. copy ≡ set_of stored.now) }
{
    Ok(Exchange {
        call: set_call(stored)?,
        reply: CallReply::Stored,
    })
}

// Makes the `set` that stored an item.
fn set_call(stored: &StoredItem) -> Result<Call, NoMemory>
    ensures value { IfOk result (λ call. call ≡ Set stored.now.key stored.now.item.flags stored.now.item.value) }
{
    let key = stored.key.copy()?;
    let flags = stored.item.flags;
    match stored.item.value.copy() {
        Ok(value) => Ok(Call::Set { key, flags, value }),
        Err(refused) => {
            drop(key);
            Err(refused)
        }
    }
}

// Makes the `get` of a key.
fn get_call(key: &Blob) -> Result<Call, NoMemory>
    ensures value { IfOk result (λ call. call ≡ Get key.now) }
{
    Ok(Call::Get { key: key.copy()? })
}

fn copied_hit(stored: &StoredItem) -> Result<Exchange, NoMemory>
    ensures value { IfOk result (λ copy. copy ≡ hit_of stored.now) }
{
    let call = get_call(&stored.key)?;
    let flags = stored.item.flags;
    let unique = stored.item.unique;
    match stored.item.value.copy() {
        Ok(value) => Ok(Exchange {
            call,
            reply: CallReply::Hit {
                flags,
                unique,
                value,
            },
        }),
        Err(refused) => {
            drop(call);
            Err(refused)
        }
    }
}

fn copied_miss(key: &Blob) -> Result<Exchange, NoMemory>
    ensures value { IfOk result (λ copy. copy ≡ miss_of key.now) }
{
    Ok(Exchange {
        call: get_call(key)?,
        reply: CallReply::Miss,
    })
}

fn copied_other(call: &Call, reply: &CallReply) -> Result<Exchange, NoMemory>
    ensures value { IfOk result (λ copy. copy ≡ exchange call.now reply.now) }
{
    let call = call.copy()?;
    match reply.copy() {
        Ok(reply) => Ok(Exchange { call, reply }),
        Err(refused) => {
            drop(call);
            Err(refused)
        }
    }
}
