//! What a call does at its key.

use mc_allows::Said;
use zy_base::Blob;

/// What a key has after a call.
#[derive(Drop)]
pub enum After {
    /// What it had before.
    Same,
    /// No item.
    Gone,
    /// An item with these flags and this value, and a unique of its own.
    Put { flags: u32, value: Blob },
}

/// What is said to a call, and what its key has after it.
#[derive(Drop)]
pub struct Outcome {
    pub said: Said,
    pub after: After,
}
