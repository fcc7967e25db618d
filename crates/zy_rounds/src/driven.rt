//! How driving ends.

use zy_core::Cores;

/// How driving ended, with the cores, in the order in which they were given.
#[derive(Drop)]
pub enum Driven {
    /// The feeder ended, and every core is settled.
    Settled(Cores),
    /// The feeder is broken.
    Broken(Cores),
    /// An allocation failed.
    NoMemory(Cores),
}
