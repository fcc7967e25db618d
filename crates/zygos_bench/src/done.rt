//! What was measured.

/// The number of things done, and the nanoseconds that they took.
#[derive(Clone, Copy, Drop)]
pub(crate) struct Done {
    pub(crate) count: u64,
    pub(crate) nanos: u64,
}
