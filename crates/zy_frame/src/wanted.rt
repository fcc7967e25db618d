//! A block that is still to come.
use zy_base::Blob;

// A storage line, the size of the value that it announces, and how many bytes of its block are
// still to come.
#[derive(Drop)]
pub(crate) struct Wanted {
    pub(crate) line: Blob,
    pub(crate) size: u32,
    pub(crate) left: usize,
}
