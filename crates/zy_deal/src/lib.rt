//! Dealing items to groups in turn, and gathering them again in their order.
#![tactic(auto)]

mod dealing;

pub use dealing::{collect, deal, empty_groups};
