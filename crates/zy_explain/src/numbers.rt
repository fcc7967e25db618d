//! The numbers of an explained recording.

/// The numbers of an explained recording.
#[derive(Clone, Copy)]
pub struct Numbers {
    /// How many commands it has.
    pub commands: u64,
    /// How many of them some mark ends.
    pub ended: u64,
}
