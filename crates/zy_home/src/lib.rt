//! The home of one core's connections: it cuts what they receive, and settles their blocks.
#![tactic(auto)]

mod blocks;
mod ends;
mod home;
mod link;
mod links;
mod own;
mod parts;
mod place;
mod places;

pub use blocks::Blocks;
pub use ends::Ends;
pub use home::Home;
pub use own::Own;
pub use parts::{HomeParts, Inlets};
