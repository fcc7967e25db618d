//! The shuffle queue of one home core: the places of its connections, their blocks, and the
//! doorbells that bring them back.
#![tactic(auto)]

mod claim;
mod left;
mod marked;
mod ring;

pub use claim::Claim;
pub use left::Left;
pub use marked::{Label, Marked, Publishing, WasHeld, WasIdle};
pub use ring::{CorePass, HomePass, Ring};
