//! The words after the program's name: which are valid, and what they ask for.
#![tactic(auto)]

mod asking;
mod given;
pub mod laws;
mod number;
mod plain;
mod request;
mod splitting;
mod verb;

pub use asking::{request_of, shards_asked};
pub use request::{Out, Request, Run, Traffic};
