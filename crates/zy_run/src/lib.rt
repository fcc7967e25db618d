//! What a run is: the commands of a capture, a legal run of their calls, its outputs and its holds;
//! and when all runs of the same commands have the same outputs.
#![tactic(auto)]

mod summary;

pub use summary::Summary;
