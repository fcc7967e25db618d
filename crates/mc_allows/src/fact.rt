//! What may be known of the item of a key.

use zy_base::Blob;

/// What may be known of the item of a key.
#[derive(Drop)]
pub enum Fact {
    /// Nothing.
    Unknown,
    /// It cannot be so.
    Never,
    /// There is no item.
    Absent,
    /// There is an item.
    Present,
    /// It has these flags and this value.
    Item { flags: u32, value: Blob },
    /// It has this value.
    Value { value: Blob },
    /// Its value may be read as this number.
    Number { number: u64 },
    /// Its value is this number in digits, perhaps with spaces after them.
    Counted { number: u64 },
    /// Its value ends with this piece.
    Ending { piece: Blob },
    /// Its value begins with this piece.
    Beginning { piece: Blob },
}
