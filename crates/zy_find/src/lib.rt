//! Looks for an order of the calls of a recording that explains what their answers show. Nothing is
//! promised of the order: who uses it checks it.
#![tactic(auto)]

mod around;
mod at_key;
mod before;
mod finding;
mod guesses;
mod helping;
mod key_lists;
mod learned;
mod making;
mod numbering;
mod order;
mod pass;
mod passing;
mod settling;
mod waiting;

pub use finding::find;
pub use order::{Found, Rules};
