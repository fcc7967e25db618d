//! What a server has between two recordings.

use mc_calls::Item;
use std::collections::BTreeSet;
use zy_base::Blob;

/// A key and its item.
#[derive(Drop)]
pub struct KeptItem {
    pub key: Blob,
    pub item: Item,
}

/// What a server has at a moment at which no command is in flight.
#[derive(Drop)]
pub struct Standing {
    /// The keys that have an item, in rising order, and their items.
    pub items: Vec<KeptItem>,
    /// The keys to which an exptime other than 0 was given so far.
    pub lasting: BTreeSet<Blob>,
    /// No unique that was given so far is greater.
    pub bound: u64,
}
