//! The state of a capture.

use crate::due::Due;

/// What is expected next, the version and the connection count; these two are 0 until they were
/// read.
#[derive(Clone, Copy)]
pub(crate) struct CaptureState {
    pub(crate) due: Due,
    pub(crate) version: u32,
    pub(crate) count: u32,
}
