//! What was stored, by its places.
ghost use Rattle.std.specs.Prelude.{◌≡◌, ◌<◌, List, length};
ghost use Rattle.mc_history.specs.declared.stored_item.StoredItem.{StoredItem};
ghost use Rattle.mc_history.specs.Recorded.{item_at};

use mc_history::{Ledger, StoredItem};
use zy_base::Blob;

/// Has the keys of what was stored, by their places.
pub trait Stored {
    // All that was stored.
    ghost stored: { Self → List StoredItem };

    /// Returns the key at a place.
    fn key_at(&self, place: u32) -> &Blob
        requires within { place < length (stored self.now) }
        ensures value { result.now ≡ (item_at (stored self.now) place).key };
}

impl Stored for Ledger {
    ghost stored = { λ l. l.stored };

    #[inline(always)]
    fn key_at(&self, place: u32) -> &Blob {
        &self.stored(place).key
    }
}

impl Stored for Vec<StoredItem> {
    ghost stored = { λ v. v.items };

    #[inline(always)]
    fn key_at(&self, place: u32) -> &Blob {
        &self[place as usize].key
    }
}
