//! Test runs: generated traffic that is served and checked.
#![tactic(auto)]

mod numbers;
mod testing;
mod traffic;

pub use testing::run_test;
pub use traffic::capture_of;
