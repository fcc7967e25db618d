//! The text that answers a command with its replies.
#![tactic(auto)]

mod answer;
mod answering;
mod item;
mod length;
mod lines;
mod marks;
mod meta_answer;
mod stats;
mod writing;

pub use stats::Stat;
pub use writing::{got_text, reply_text, set_text};
