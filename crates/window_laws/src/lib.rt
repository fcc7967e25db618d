//! Laws of windows: recordings that follow each other, each explained from what the one before it left.
#![tactic(auto)]

mod windows;

pub use windows::{a_chain_goes_on, a_chain_of_windows_is_explained, windows_are_explained_as_one};
