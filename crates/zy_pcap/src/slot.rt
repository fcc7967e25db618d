//! The connection number of a flow.

/// The connection number of a flow.
#[derive(Clone, Copy)]
pub(crate) enum Slot {
    /// It has this one.
    Known(u32),
    /// This one is free, and is to be given to it.
    New(u32),
    /// Its group has no free number.
    Full,
}
