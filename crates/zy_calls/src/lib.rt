//! Batches of texts to send, and the outputs of connections.
#![tactic(auto)]

mod batch;
mod output;
mod room;
mod texts;
mod writes;

pub use batch::Batch;
pub use output::Output;
pub use room::Room;
pub use writes::Writes;
