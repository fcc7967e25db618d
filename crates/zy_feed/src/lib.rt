//! The feeder of a run: it reads a capture in pieces, and offers each record to the home core of
//! its connection.
#![tactic(auto)]

mod feeder;
mod inlets;
mod intake;
mod laws;
mod stage;
mod stop;

pub use feeder::CaptureFeeder;
pub use inlets::Inlets;
pub use intake::{Header, Intake};
pub use laws::{a_broken_feeder_has_its_cause, a_feeder_that_ended_has_offered_the_capture};
pub use stop::Stop;
