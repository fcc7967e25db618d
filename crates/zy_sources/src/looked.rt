//! What sources are looked for in, and for whom.

use crate::keys::Keys;
use crate::numbers::at;
use crate::sessions::end_of;
use zy_refute::Observed;

/// What sources are looked for in.
#[derive(Clone, Copy)]
pub(crate) struct Looked<'a> {
    pub(crate) observed: &'a [Observed],
    pub(crate) keys: &'a Keys,
    pub(crate) floors: &'a [u64],
    pub(crate) by_end: &'a [u32],
    pub(crate) by_sent: &'a [u32],
    /// Items may be there at first.
    pub(crate) warm: bool,
    /// There are flushes, by which items may go without a call at their key.
    pub(crate) flushed: bool,
}

impl Looked<'_> {
    // The number of a call's key, or `NONE`.
    pub(crate) fn key_of(self, call: u32) -> u32 {
        at(self.keys.of.as_slice(), call)
    }

    // Checks whether the item of a key may go without a call at the key.
    pub(crate) fn may_go(self, key: u32) -> bool {
        let forgets = match self.keys.forget.get(key as usize) {
            Some(forgets) => *forgets,
            None => true,
        };
        forgets || self.flushed
    }
}

// What a call found.
#[derive(Clone, Copy)]
pub(crate) enum Found<'a> {
    Value(&'a [u8]),
    // A number, which its answer tells.
    Number,
    Absence,
}

// A call that found something: its floor and its end.
#[derive(Clone, Copy)]
pub(crate) struct Reader {
    pub(crate) call: u32,
    pub(crate) floor: u64,
    pub(crate) end: u64,
}

impl Reader {
    // Checks whether it can have found what a call made.
    pub(crate) fn may_find(self, maker: u32, other: &Observed) -> bool {
        maker != self.call && self.floor < end_of(other) && other.sent < self.end
    }
}
