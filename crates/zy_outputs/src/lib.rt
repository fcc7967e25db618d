//! Cuts the outputs of all sessions into answers: refutes one, or gives all calls with what the answers show.
#![tactic(auto)]

mod adding;
mod finding;
mod observing;
mod others;
mod rules;
mod seen;
mod session;
mod showing;
mod texts;
mod timing;

pub use observing::{Observing, observe};
