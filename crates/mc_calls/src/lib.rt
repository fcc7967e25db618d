//! memcached's calls on shards: calls, replies, entries and holds, with the definitions on them.
#![tactic(auto)]

mod call;
mod call_kind;
mod call_reply;
mod counting;
mod entry;
mod fits;
mod hold;
mod item;
mod key;
mod tallied;

pub use call::Call;
pub use call_kind::{CallFields, CallKind, LAST_CALL_CODE};
pub use call_reply::{CallReply, HIT_CODE, LAST_REPLY_CODE, NUMBER_CODE, Replies, TALLY_CODE};
pub use entry::{Entries, Entry, Tag};
pub use fits::numbers_fit;
pub use hold::{Hold, Holds};
pub use item::Item;
pub use key::{hash_of, shard_of};
pub use tallied::Tallied;
