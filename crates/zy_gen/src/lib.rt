//! Generated traffic: a capture of any size, made from a number, all runs of which have the same
//! outputs.
#![tactic(auto)]

mod drawing;
mod laws;
mod making;
mod request;
mod writing;

pub use laws::{
    each_run_of_generated_traffic_has_the_summary, generated_traffic_is_a_good_capture,
};
pub use making::generate;
pub use request::{Command, Request};
