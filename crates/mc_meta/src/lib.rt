//! Reads a line as a meta command, with places in the line.
#![tactic(auto)]

mod exptime;
mod flags;
mod letters;
mod meta_line;
mod number;
mod reading;
mod word;

pub use exptime::is_exptime;
pub use letters::Letters;
pub use meta_line::{MetaLine, Span};
pub use number::read_small_number;
pub use reading::read_meta;
pub use word::{count_spaces, is_key, word_length};
