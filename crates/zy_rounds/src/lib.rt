//! Driving cores on one thread: turns, naps and rounds of them, and the steps of a feeder in between.
#![tactic(auto)]

mod driven;
mod driving;
mod feeding;
mod group;
mod naps;
mod ordered;
mod patience;
mod resting;
mod round;
mod turns;

pub use driven::Driven;
pub use driving::Driving;
pub use feeding::{Step, feed_once};
pub use group::Group;
pub use ordered::drive_ordered;
pub use patience::Patience;
pub use resting::{Rester, call_up, go_on};
pub use round::Round;
