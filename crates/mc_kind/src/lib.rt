//! Finds where the first answer in an output ends, and cuts the output of a session into answers.
#![tactic(auto)]

mod counts;
mod cutting;
mod finding;
mod first;
mod keys;
mod lines;
mod listing;
mod marked;
mod piece;
mod shown;
mod text;

pub use cutting::{Cutting, cut_session};
pub use finding::first_answer;
pub use first::First;
pub use keys::{are_words, is_word};
pub use text::Text;
