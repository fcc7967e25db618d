//! The journal: the shards' histories as one list, and the writer of its file.
#![tactic(auto)]

mod gathered;
mod heads;
mod journal;
mod laws;
mod merging;
mod pieces;
mod rests;
mod walk;
mod writing;

pub use journal::Journal;
pub use laws::rising_histories_are_in_order;
pub use merging::merge;
pub use walk::Walk;
pub use writing::write_journal;
