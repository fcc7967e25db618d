//! Entries in 32 bytes: what a call was, and where its parts are.
use mc_calls::Tag;

/// What a call was, and which list its place is in.
#[derive(Clone, Copy)]
pub(crate) enum Form {
    /// A `set`, with the place of what it stored.
    Set,
    /// A `get` that found the item at the place.
    Hit,
    /// A `get` that found none, with the place of its key.
    Miss,
    /// Any other call, with the place of the call and its reply.
    Other,
}

/// An entry of a ledger: whose call it is, when it was made, its form and its place.
#[derive(Clone, Copy)]
pub(crate) struct CompactEntry {
    pub(crate) tag: Tag,
    pub(crate) stamp: u64,
    pub(crate) place: u32,
    pub(crate) form: Form,
}

const _: () = prove!(size_of::<CompactEntry>() == 32);
