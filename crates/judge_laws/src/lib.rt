//! Laws of verdicts on recordings: what `linear` says, and how `judge` agrees with it.
#![tactic(auto)]

mod explained;
mod findings;
mod profile;

pub use explained::a_legal_run_is_explained;
pub use findings::{an_input_has_one_finding, each_call_lies_within_its_command};
pub use profile::the_profile_has_answers;
