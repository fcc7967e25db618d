//! Orders of calls, as a search hands them to a check.

use mc_allows::CallName;
use zy_base::Items;

/// What a server chose where it has a choice.
#[derive(Clone, Copy, PartialEq, Eq)]
pub enum Choice {
    /// It had none, or answered as the protocol says: what is counted is written without spaces.
    Plain,
    /// What is counted is written with as many spaces as make up the length of the value before.
    Padded,
    /// It read this number in a value that is none by itself, and wrote what is counted without
    /// spaces.
    Read(u64),
    /// It read no number in a value that may be one.
    NoNumber,
    /// A joined value was too long, and it said `NOT_STORED`.
    Refused,
    /// A joined value was too long, and it said so.
    TooLarge,
    /// The call failed, and the item stayed.
    Failed,
    /// The call failed, and the item is gone.
    FailedAndGone,
}

/// A call in an order: its name, what the server chose, and the unique of the item that the call
/// stores, joins or counts, if it does. The key's item may have been lost right before the call.
#[derive(Clone, Copy)]
pub struct Placement {
    pub name: CallName,
    pub unique: u64,
    pub choice: Choice,
    pub lost: bool,
}

/// All calls, in an order that may explain a recording.
pub type Order = Items<Placement>;
