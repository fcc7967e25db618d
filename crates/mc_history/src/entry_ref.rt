//! Entries whose parts are lent.
ghost use Rattle.std.specs.Prelude.{◌≡◌, option_copied};
ghost use Rattle.mc_calls.specs.Call.{key_of};
ghost use Rattle.mc_calls.specs.Code.{call_kind, call_code, call_flags, call_number, call_value};
ghost use Rattle.mc_calls.specs.Code.{reply_code, reply_flags, reply_number, reply_value, reply_counts};

use crate::stored_item::StoredItem;
use mc_calls::{Call, CallKind, CallReply, Entry, HIT_CODE, Tag, Tallied};
use std::marker::Model;
use zy_base::Blob;

/// A call with its reply, where its parts are kept.
#[derive(Clone, Copy)]
pub(crate) enum ExchangeRef<'a> {
    Set(&'a StoredItem),
    Hit(&'a StoredItem),
    Miss(&'a Blob),
    Other(&'a Call, &'a CallReply),
}

/// An entry of a history, whose parts are lent. Contracts see it as the entry.
#[derive(Drop)]
pub struct EntryRef<'a> {
    pub(crate) tag: Tag,
    pub(crate) stamp: u64,
    pub(crate) shard: u32,
    pub(crate) exchange: ExchangeRef<'a>,
}

impl<'a> Model for EntryRef<'a> {
    ghost use Rattle.mc_calls.specs.declared.entry.Entry.{Entry};
    ghost use Rattle.mc_history.specs.Compact.{entry_by};

    ghost Value = { Entry };

    ghost view = { λ e. entry_by e.tag e.shard e.stamp e.exchange };
}

impl<'a> EntryRef<'a> {
    /// Lends an entry that is whole.
    pub fn of(entry: &'a Entry) -> EntryRef<'a>
        ensures value { result ≡ entry.now }
    {
        EntryRef {
            tag: entry.tag,
            stamp: entry.stamp,
            shard: entry.shard,
            exchange: ExchangeRef::Other(&entry.call, &entry.reply),
        }
    }

    /// Returns whose call it is.
    pub fn tag(&self) -> Tag
        ensures value { result ≡ self.now.tag }
    {
        self.tag
    }

    /// Returns the number of the shard.
    pub fn shard(&self) -> u32
        ensures value { result ≡ self.now.shard }
    {
        self.shard
    }

    /// Returns the stamp.
    pub fn stamp(&self) -> u64
        ensures value { result ≡ self.now.stamp }
    {
        self.stamp
    }

    /// Returns the kind of the call.
    pub fn kind(&self) -> CallKind
        ensures value { result ≡ call_kind self.now.call }
    {
        match self.exchange {
            ExchangeRef::Set(_) => CallKind::Set,
            ExchangeRef::Hit(_) | ExchangeRef::Miss(_) => CallKind::Get,
            ExchangeRef::Other(call, _) => call.kind(),
        }
    }

    /// Returns the code of the call.
    pub fn code(&self) -> u8
        ensures value { result ≡ call_code self.now.call }
    {
        self.kind().code()
    }

    /// Returns the key of the call, if it has one.
    pub fn key(&self) -> Option<&'a Blob>
        ensures value { option_copied result ≡ key_of self.now.call }
    {
        match self.exchange {
            ExchangeRef::Set(stored) | ExchangeRef::Hit(stored) => Some(&stored.key),
            ExchangeRef::Miss(key) => Some(key),
            ExchangeRef::Other(call, _) => call.key(),
        }
    }

    /// Returns the flags of the call, if it has some.
    pub fn flags(&self) -> Option<u32>
        ensures value { result ≡ call_flags self.now.call }
    {
        match self.exchange {
            ExchangeRef::Set(stored) => Some(stored.item.flags),
            ExchangeRef::Hit(_) | ExchangeRef::Miss(_) => None,
            ExchangeRef::Other(call, _) => call.flags(),
        }
    }

    /// Returns the unique of a cas, and the amount of an incr or a decr.
    pub fn number(&self) -> Option<u64>
        ensures value { result ≡ call_number self.now.call }
    {
        match self.exchange {
            ExchangeRef::Other(call, _) => call.number(),
            _ => None,
        }
    }

    /// Returns the value of the call, if it has one.
    pub fn value(&self) -> Option<&'a Blob>
        ensures value { option_copied result ≡ call_value self.now.call }
    {
        match self.exchange {
            ExchangeRef::Set(stored) => Some(&stored.item.value),
            ExchangeRef::Hit(_) | ExchangeRef::Miss(_) => None,
            ExchangeRef::Other(call, _) => call.value(),
        }
    }

    /// Returns the code of the reply.
    pub fn reply_code(&self) -> u8
        ensures value { result ≡ reply_code self.now.reply }
    {
        match self.exchange {
            ExchangeRef::Set(_) => CallReply::Stored.code(),
            ExchangeRef::Hit(_) => HIT_CODE,
            ExchangeRef::Miss(_) => CallReply::Miss.code(),
            ExchangeRef::Other(_, reply) => reply.code(),
        }
    }

    /// Returns the flags of a hit.
    pub fn reply_flags(&self) -> Option<u32>
        ensures value { result ≡ reply_flags self.now.reply }
    {
        match self.exchange {
            ExchangeRef::Hit(stored) => Some(stored.item.flags),
            ExchangeRef::Set(_) | ExchangeRef::Miss(_) => None,
            ExchangeRef::Other(_, reply) => reply.flags(),
        }
    }

    /// Returns the unique of a hit, and the number that a value is now.
    pub fn reply_number(&self) -> Option<u64>
        ensures value { result ≡ reply_number self.now.reply }
    {
        match self.exchange {
            ExchangeRef::Hit(stored) => Some(stored.item.unique),
            ExchangeRef::Set(_) | ExchangeRef::Miss(_) => None,
            ExchangeRef::Other(_, reply) => reply.number(),
        }
    }

    /// Returns the value of a hit.
    pub fn reply_value(&self) -> Option<&'a Blob>
        ensures value { option_copied result ≡ reply_value self.now.reply }
    {
        match self.exchange {
            ExchangeRef::Hit(stored) => Some(&stored.item.value),
            ExchangeRef::Set(_) | ExchangeRef::Miss(_) => None,
            ExchangeRef::Other(_, reply) => reply.value(),
        }
    }

    /// Returns the five numbers of a tally.
    pub fn reply_counts(&self) -> Option<Tallied>
        ensures value { result ≡ reply_counts self.now.reply }
    {
        match self.exchange {
            ExchangeRef::Other(_, reply) => reply.counts(),
            _ => None,
        }
    }
}

const _: () = prove!(size_of::<EntryRef<'static>>() == 56);
