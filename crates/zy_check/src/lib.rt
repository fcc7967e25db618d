//! Checks whether a journal and outputs are those of a run of some streams, and finds the first
//! cause if they are not.
#![tactic(auto)]

mod answered;
mod begun;
mod bytes;
mod checking;
mod compared;
mod cursor;
mod files;
mod holds;
mod in_progress;
mod laws;
mod missing;
mod outputs;
mod single;
mod track;
mod verdict;
mod walk;

pub use answered::{Answered, Checked};
pub use checking::{check, check_answered};
pub use laws::served_runs_check;
pub use verdict::{Cause, Verdict};
