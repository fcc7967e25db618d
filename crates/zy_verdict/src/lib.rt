//! The two statements about a recording: that it is explained, and what any order of the calls at a key must be.
#![tactic(auto)]

mod laws;
mod order;

pub use laws::{an_explained_recording_has_courses, before_is_kept};
pub use order::{Choice, Order, Placement};
