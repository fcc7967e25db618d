//! Meta commands.
use mc_calls::Call;
use mc_meta::Letters;
use zy_base::Blob;

/// What a meta command asks for.
#[derive(Drop)]
pub enum Meta {
    /// `mn`: does nothing, but is answered.
    Noop,
    /// `mg`: gets the item of the key. The flags are in the line's order.
    Get {
        key: Blob,
        flags: Letters,
    },
    /// `ms`: stores under the key, by this call.
    Set {
        key: Blob,
        call: Call,
        /// The letters without a token, in the line's order.
        marks: Letters,
    },
    /// `md`: removes the item of the key. The flags are in the line's order.
    Delete {
        key: Blob,
        flags: Letters,
    },
}
