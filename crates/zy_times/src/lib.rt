//! When the commands of a recording were sent and when they had ended, and whether a journal fits these times.
#![tactic(auto)]

mod ending;
mod fitting;
mod judging;
mod late;
mod laws;
mod line;
mod moments;
mod notes;
mod session;
mod span;
mod spans;
mod times;
mod timing;
mod walk;

pub use judging::judge;
pub use laws::{a_journal_is_in_time_exactly_if_none_is_late, each_call_has_a_moment};
pub use times::Times;
pub use timing::Timing;
