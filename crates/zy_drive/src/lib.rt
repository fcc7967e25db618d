//! Driving groups of cores on many threads, while the caller feeds them.
#![tactic(auto)]

mod caller;
mod first_group;
mod handed_back;
mod lent;
mod resters;
mod room;
mod scoped;
mod seat;
mod seats;
mod tending;
mod threads;

pub use first_group::FirstGroup;
pub use handed_back::take_back;
pub use resters::rest_of;
pub use threads::{drive, drive_groups};
