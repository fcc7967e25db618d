//! Comparing entries with calls and replies, without copies.
ghost use Rattle.std.specs.Prelude.{◌≡◌, ◌↔◌, true};
ghost use Rattle.mc_calls.specs.declared.call.Call.TheVariants.{Get, Set};
ghost use Rattle.mc_calls.specs.declared.call_reply.CallReply.TheVariants.{Hit};

use crate::entry_ref::{EntryRef, ExchangeRef};
use crate::stored_item::StoredItem;
use mc_calls::{Call, CallReply, Item};
use zy_base::Blob;

impl<'a> EntryRef<'a> {
    /// Checks whether the entry is of this call.
    pub fn call_is(&self, call: &Call) -> bool
        ensures exact { result ≡ true ↔ self.now.call ≡ call.now }
    {
        match self.exchange {
            ExchangeRef::Set(stored) => is_set_of(call, stored),
            ExchangeRef::Hit(stored) => is_get_of(call, &stored.key),
            ExchangeRef::Miss(key) => is_get_of(call, key),
            ExchangeRef::Other(own, _) => own == call,
        }
    }

    /// Checks whether this is the entry's reply.
    pub fn is_reply(&self, reply: &CallReply) -> bool
        ensures exact { result ≡ true ↔ self.now.reply ≡ reply.now }
    {
        match self.exchange {
            ExchangeRef::Set(_) => matches!(reply, CallReply::Stored),
            ExchangeRef::Hit(stored) => is_hit_of(reply, &stored.item),
            ExchangeRef::Miss(_) => matches!(reply, CallReply::Miss),
            ExchangeRef::Other(_, own) => own == reply,
        }
    }
}

// Checks whether a call is the `set` that stored this item.
fn is_set_of(call: &Call, stored: &StoredItem) -> bool
    ensures exact { result ≡ true
        ↔ Set stored.now.key stored.now.item.flags stored.now.item.value ≡ call.now }
{
    match call {
        Call::Set { key, flags, value } => {
            stored.key == *key && stored.item.flags == *flags && stored.item.value == *value
        }
        _ => false,
    }
}

// Checks whether a call is the `get` of this key.
fn is_get_of(call: &Call, own: &Blob) -> bool
    ensures exact { result ≡ true ↔ Get own.now ≡ call.now }
{
    match call {
        Call::Get { key } => own == key,
        _ => false,
    }
}

// Checks whether a reply is a hit with this item.
fn is_hit_of(reply: &CallReply, item: &Item) -> bool
    ensures exact { result ≡ true ↔ Hit item.now.flags item.now.unique item.now.value ≡ reply.now }
{
    match reply {
        CallReply::Hit {
            flags,
            unique,
            value,
        } => item.flags == *flags && item.unique == *unique && item.value == *value,
        _ => false,
    }
}
