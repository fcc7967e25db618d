//! The top call of `linear`: arguments and a recording in; an answer whether it is linearizable
//! out.
#![tactic(auto)]

mod command;
mod exit_status;
mod finding;
mod input;
mod judging;
mod serving;
mod writing;

pub use exit_status::status;
pub use finding::Finding;
pub use serving::serve_linear;
pub use zy_check::Cause;
pub use zy_shell::{Failure, Refusal};
pub use zy_times::Timing;
