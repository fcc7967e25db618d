//! Calls as a recording shows them, and which of its keys have no course.
#![tactic(auto)]

mod collecting;
mod copying;
mod laws;
mod refuting;

pub use collecting::calls_at;
pub use laws::a_course_is_an_order;
pub use refuting::{Refuted, Rule, refute_key};
