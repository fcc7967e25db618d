//! Says what a key has after a call, and looks for an order of the calls at a key. Nothing is promised
//! of the order: who uses it checks it.
#![tactic(auto)]

mod after;
mod begun;
mod counting;
mod decided;
mod deciding;
mod first;
mod getting;
mod guessing;
mod held;
mod needs;
mod search;
mod searching;
mod storing;
mod words;

pub use after::held_after;
pub use begun::Firsts;
pub use decided::{Change, Decided, First, Unique};
pub use deciding::{decide, decide_after};
pub use first::{FirstItem, first_item};
pub use guessing::{Was, item_that_was, tells_nothing, told_by, was_before};
pub use held::{AT_FIRST, Held, Known, Sight, held_at_first};
pub use searching::{Listed, look_for};
