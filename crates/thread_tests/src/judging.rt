//! How a test that fails is ended.
use std::process::Abort;

/// Ends the run, since an allocation failed.
pub(crate) fn no_memory<R: Abort>(rt: &R) -> ! {
    panic!(rt; "no memory")
}

/// Ends the run if this does not hold.
pub(crate) fn judge<R: Abort>(rt: &R, holds: bool, what: &str) {
    assert!(rt; holds, "{what}");
}
