//! A connection's block: its pass on the store, its events, the command in progress, its batch and
//! its holds.
#![tactic(auto)]

mod answer;
mod begun;
mod block;
mod calling;
mod hold_end;
mod holding;
mod work;

pub use block::Block;
pub use hold_end::HoldEnd;
pub use work::EventInlet;
