//! Who drives the first group of cores.

/// Who drives the first group of cores.
#[derive(Clone, Copy, Drop, PartialEq, Eq)]
pub enum FirstGroup {
    /// A thread of its own, as each other group has.
    Thread,
    /// The caller, between the items that it offers.
    Caller,
}
