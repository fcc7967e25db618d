//! The top call of `judge`: arguments and a recording in; an answer whether some order of its calls
//! explains it out.
#![tactic(auto)]

mod command;
mod exit_status;
mod finding;
mod input;
mod judged;
mod judging;
mod naming;
mod ordering;
mod reading;
mod refuting;
mod serving;
mod words;
mod writing;

pub use exit_status::status;
pub use finding::{Finding, Open, Reason};
pub use serving::serve_judge;
pub use zy_explain::Rules;
pub use zy_shell::{Failure, Refusal};
