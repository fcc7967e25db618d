//! Laws of served runs and of checks.
#![tactic(auto)]

mod laws;

pub use laws::{
    a_served_run_has_short_files, an_input_has_one_verdict, an_input_that_checks_is_of_a_run,
    the_headline_is_of_a_run, what_is_served_checks,
};
