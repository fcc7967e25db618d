//! The histories of shards: 32 bytes for a call, each stored item once, and readers that read entry by entry.
#![tactic(auto)]

mod compact_entry;
mod comparing;
mod copying;
mod entry_ref;
mod exchange;
mod histories;
mod history;
mod history_walk;
mod ledger;
mod lent_exchange;
mod stored_item;

pub use entry_ref::EntryRef;
pub use exchange::Exchange;
pub use histories::Histories;
pub use history::History;
pub use history_walk::HistoryWalk;
pub use ledger::Ledger;
pub use lent_exchange::LentExchange;
pub use stored_item::StoredItem;
