//! Says what an answer's bytes show of what was said to each call of its command.
#![tactic(auto)]

mod keyed;
mod listed;
mod listing;
mod marked;
mod numbered;
mod part;
mod showing;
mod told;
mod valued;

pub use part::Part;
pub use showing::shown_by;
