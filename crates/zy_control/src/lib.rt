//! The control words that the cores of a run share: the number of cores that are done, whether all
//! are to stop, and which cores rest.
#![tactic(auto)]

mod control;
mod pass;
mod plays;
mod view;

pub use control::Control;
pub use pass::{ControlPass, ControlRoot};
