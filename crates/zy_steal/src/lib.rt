//! Stealing: the rings of all cores, one core's passes on the others, and the order in which it looks at them.
#![tactic(auto)]

mod looks;
mod order;
mod passes;
mod rings;
mod victims;

pub use looks::{Look, Looks};
pub use order::Order;
pub use passes::Passes;
pub use rings::Rings;
pub use victims::{Stolen, StolenBlock, Victims};
