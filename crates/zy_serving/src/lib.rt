//! A served run: a capture is read, its cores are made, driven and taken apart.
#![tactic(auto)]

mod drive;
mod serving;

pub use serving::serve_capture;
