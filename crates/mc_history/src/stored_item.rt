//! Keys with items that were stored.
use mc_calls::Item;
use zy_base::Blob;

/// A key with an item that was stored at it.
#[derive(Drop)]
pub struct StoredItem {
    pub key: Blob,
    pub item: Item,
}

const _: () = prove!(size_of::<StoredItem>() == 80);

const _: () = prove!(size_of::<Blob>() == 32);
