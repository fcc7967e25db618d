//! Why a reader didn't take a byte.

use zy_base::FileFault;

/// Why a reader didn't take a byte. Its texts have faults of type `F`.
#[derive(Clone, Copy, PartialEq, Eq)]
pub enum NotTaken<F> {
    /// The text has this fault.
    Fault(F),
    /// An allocation failed; the byte is still to be taken.
    NoMemory,
}

/// Why a reader of journals or replies files didn't take a byte.
pub type FileFeed = NotTaken<FileFault>;
