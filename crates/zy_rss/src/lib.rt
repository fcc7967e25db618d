//! The hash of receive side scaling, by which a packet's flow gets its group.
#![tactic(auto)]

mod hashing;
mod windows;

pub use hashing::toeplitz;
