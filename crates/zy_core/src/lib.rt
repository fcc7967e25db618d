//! Logical cores: a core, its turn and its nap, what cores share, and the parts of a run.
#![tactic(auto)]

mod cores;
mod logical_core;
mod nap;
mod running;
mod shared;
mod stealing;
mod steps;
mod turn;

pub use cores::Cores;
pub use logical_core::Core;
pub use nap::Nap;
pub use running::Running;
pub use shared::Shared;
pub use turn::{Came, Turn};
