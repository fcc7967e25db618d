//! Counts of what a shard of the store has answered, and of its items.
#![tactic(auto)]

mod counts;

pub use counts::Counts;
