//! What a shard answers to a call.
ghost use Rattle.std.specs.Prelude.{◌≡◌, IfOk, option_copied};
ghost use Rattle.mc_calls.specs.Code.{reply_code, reply_flags, reply_number, reply_value, reply_counts, tally};
ghost use Rattle.mc_calls.specs.Code.{plain_reply};

use crate::tallied::Tallied;
use zy_base::{Blob, Items, NoMemory};

/// What a shard answers to a call.
#[derive(PartialEq, Eq, Drop)]
pub enum CallReply {
    /// A get found no item.
    Miss,
    /// A get found this item.
    Hit {
        flags: u32,
        unique: u64,
        value: Blob,
    },
    /// An item was stored.
    Stored,
    /// The key has an item although the call needs none, or none although it needs one.
    NotStored,
    /// The item has another unique.
    Exists,
    /// The key has no item.
    NotFound,
    /// The item was removed.
    Deleted,
    /// The number that the value is now.
    Number {
        number: u64,
    },
    /// The item's value is no number.
    NotNumber,
    /// The joined value would be too large.
    TooLarge,
    /// All items of the shard were removed.
    Flushed,
    /// What was counted of the calls on the shard before this one.
    Tally {
        /// Calls that get the item of a key.
        gets: u64,
        /// Calls that store a value, whatever their reply.
        sets: u64,
        /// The gets that found an item.
        hits: u64,
        /// The gets that found none.
        misses: u64,
        /// The items that the shard has.
        items: u64,
    },
}

/// The greatest code of a reply.
pub const LAST_REPLY_CODE: u8 = 12;

/// The code of a hit; its flags, its unique and its value follow.
pub const HIT_CODE: u8 = 2;

/// The code of a number, which follows it.
pub const NUMBER_CODE: u8 = 8;

/// The code of a tally; its five numbers follow.
pub const TALLY_CODE: u8 = 12;

impl CallReply {
    /// Returns the code of the reply in a journal.
    pub fn code(&self) -> u8
        ensures value { result ≡ reply_code self.now }
    {
        match self {
            CallReply::Miss => 1,
            CallReply::Hit { .. } => HIT_CODE,
            CallReply::Stored => 3,
            CallReply::NotStored => 4,
            CallReply::Exists => 5,
            CallReply::NotFound => 6,
            CallReply::Deleted => 7,
            CallReply::Number { .. } => NUMBER_CODE,
            CallReply::NotNumber => 9,
            CallReply::TooLarge => 10,
            CallReply::Flushed => 11,
            CallReply::Tally { .. } => TALLY_CODE,
        }
    }

    /// Returns the flags of a hit.
    pub fn flags(&self) -> Option<u32>
        ensures value { result ≡ reply_flags self.now }
    {
        match self {
            CallReply::Hit { flags, .. } => Some(*flags),
            _ => None,
        }
    }

    /// Returns the unique of a hit, and the number that a value is now.
    pub fn number(&self) -> Option<u64>
        ensures value { result ≡ reply_number self.now }
    {
        match self {
            CallReply::Hit { unique, .. } => Some(*unique),
            CallReply::Number { number } => Some(*number),
            _ => None,
        }
    }

    /// Returns the value of a hit.
    pub fn value(&self) -> Option<&Blob>
        ensures value { option_copied result ≡ reply_value self.now }
    {
        match self {
            CallReply::Hit { value, .. } => Some(value),
            _ => None,
        }
    }

    /// Returns the five numbers of a tally.
    pub fn counts(&self) -> Option<Tallied>
        ensures value { result ≡ reply_counts self.now }
    {
        match self {
            CallReply::Tally {
                gets,
                sets,
                hits,
                misses,
                items,
            } => Some(Tallied {
                gets: *gets,
                sets: *sets,
                hits: *hits,
                misses: *misses,
                items: *items,
            }),
            _ => None,
        }
    }

    /// Returns the tally that has these numbers.
    pub fn tally(counts: Tallied) -> CallReply
        ensures value { result ≡ tally counts }
    {
        let Tallied {
            gets,
            sets,
            hits,
            misses,
            items,
        } = counts;
        CallReply::Tally {
            gets,
            sets,
            hits,
            misses,
            items,
        }
    }

    /// Returns the reply that has this code and no fields.
    pub fn plain(code: u8) -> CallReply
        ensures value { result ≡ plain_reply code }
    {
        match code {
            1 => CallReply::Miss,
            3 => CallReply::Stored,
            4 => CallReply::NotStored,
            5 => CallReply::Exists,
            6 => CallReply::NotFound,
            7 => CallReply::Deleted,
            9 => CallReply::NotNumber,
            10 => CallReply::TooLarge,
            _ => CallReply::Flushed,
        }
    }

    /// Copies the reply.
    #[inline(always)]
    pub fn copy(&self) -> Result<CallReply, NoMemory>
        ensures value { IfOk result (λ copy. copy ≡ self.now) }
    {
        match self {
            CallReply::Miss => Ok(CallReply::Miss),
            CallReply::Hit {
                flags,
                unique,
                value,
            } => Ok(CallReply::Hit {
                flags: *flags,
                unique: *unique,
                value: value.copy()?,
            }),
            CallReply::Stored => Ok(CallReply::Stored),
            CallReply::NotStored => Ok(CallReply::NotStored),
            CallReply::Exists => Ok(CallReply::Exists),
            CallReply::NotFound => Ok(CallReply::NotFound),
            CallReply::Deleted => Ok(CallReply::Deleted),
            CallReply::Number { number } => Ok(CallReply::Number { number: *number }),
            CallReply::NotNumber => Ok(CallReply::NotNumber),
            CallReply::TooLarge => Ok(CallReply::TooLarge),
            CallReply::Flushed => Ok(CallReply::Flushed),
            CallReply::Tally {
                gets,
                sets,
                hits,
                misses,
                items,
            } => Ok(CallReply::Tally {
                gets: *gets,
                sets: *sets,
                hits: *hits,
                misses: *misses,
                items: *items,
            }),
        }
    }
}

/// A list of replies.
pub type Replies = Items<CallReply>;
