//! The end of a run: its cores, their homes and the store are taken apart, into the journal and the outputs.
#![tactic(auto)]

mod cutting;
mod finishing;
mod gathered;
mod rest;
mod sessions;
mod taking;

pub use finishing::{Finished, finish};
