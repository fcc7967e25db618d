//! What programs have in common: the real streams, the arguments, failures with their lines and
//! exit statuses, and the line of a verdict.
#![tactic(auto)]

mod failure;
mod faults;
mod lines;
mod process;
mod saying;
mod standard;
mod verdicts;
mod writing;

pub use failure::Failure;
pub use lines::{Piece, write_line, write_number, write_two};
pub use process::{without_memory, words};
pub use saying::say;
pub use standard::{StdSink, StdSource};
pub use verdicts::write_verdict;
pub use writing::{finish_written, write_last};
pub use zy_input::Refusal;
