//! Cuts a stream of memcached's text protocol into frames, in whatever pieces the stream comes.
#![tactic(auto)]

mod form;
mod frame;
mod frame_command;
mod frame_kind;
mod framer;
mod frames;
mod in_frame;
mod in_line;
mod keeping;
mod line_end;
mod parts;
mod state;
mod stepping;
mod wanted;
mod whole;

pub use frame::Frame;
pub use frame_command::{meaning, meaning_in, one_key_of, one_set_of};
pub use frame_kind::FrameKind;
pub use framer::Framer;
pub use frames::Frames;
pub use parts::Parts;
