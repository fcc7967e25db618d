//! Bells at which cores rest: a core sleeps until its token is put, by another core or by the thread
//! that feeds the cores.
#![tactic(auto)]

mod bell;
mod bells;
mod pass;
mod view;

pub use bells::Bells;
pub use pass::{BellPass, BellRoot};
