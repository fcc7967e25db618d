//! Reads answers, and checks whether bytes begin with the answer to what was said.
#![tactic(auto)]

mod answering;
mod any_order;
mod counts;
mod fixed;
mod heading;
mod item;
mod line;
mod listing;
mod marked;
mod one;
mod reply;
mod size;
mod text;

pub use answering::answers_with;
pub use heading::{Heading, read_heading};
pub use line::{is_error_line, is_line_with, line_length};
pub use one::reply_kind;
pub use reply::{may_be_said, read_reply, stores};
pub use size::read_size;
pub use text::text_from;
