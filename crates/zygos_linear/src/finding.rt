//! What is found of a recording.

use zy_check::Cause;
use zy_times::Timing;

/// What is found of a recording: a capture, a journal and a replies file.
#[derive(Clone, Copy, PartialEq, Eq)]
pub enum Finding {
    /// The journal and the replies are not those of a run of the capture, for this cause.
    NoRun(Cause),
    /// They are. This says whether the journal fits the times of the capture.
    Run(Timing),
}
