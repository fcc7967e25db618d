//! One shard of the store, with the history of its calls.
#![tactic(auto)]

mod change;
mod contents;
mod counting;
mod hashed;
mod line;
mod made;
mod places;
mod replay;
mod shard;
mod slot;
mod step;
mod stored;

pub use made::Made;
pub use replay::Replay;
pub use shard::Shard;
