//! The top call: words and an input in; replies, a verdict, a capture, or a report out.
#![tactic(auto)]

mod answer;
mod check;
mod command;
mod generate;
mod packets;
mod report;
mod run;
mod self_test;
mod serving;
mod summary;

pub use answer::{Answer, status};
pub use serving::serve;
pub use zy_check::{Cause, Verdict};
pub use zy_run::Summary;
pub use zy_shell::{Failure, Refusal};
