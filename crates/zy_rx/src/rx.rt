//! The items that a core receives.
use zy_base::Blob;

/// An item that a core receives.
#[derive(Drop)]
pub enum Rx {
    /// Bytes of a connection, as they came.
    Segment { conn: u32, bytes: Blob },
    /// The session of a connection ends.
    Close { conn: u32 },
    /// No more items come.
    End,
}
