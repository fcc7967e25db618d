//! The inputs of the programs, read from one source: a capture, a journal and a replies file, one
//! after the other; a capture and a replies file, or these with an items file between them; only a
//! capture or a journal; and recorded packets.
#![tactic(auto)]

mod capture_part;
mod items_part;
mod journal_part;
mod keep;
mod laws;
mod notes;
mod packets_part;
mod part;
mod parts;
mod recording;
mod replies_part;
mod stop;
mod window;

pub use laws::{
    parts_have_no_fault, recordings_have_no_fault, there_is_one_part_fault,
    there_is_one_recording_fault, there_is_one_window_fault, windows_have_no_fault,
};
pub use notes::{NoNotes, Noted, Notes};
pub use parts::{
    NotedParts, Parts, read_journal, read_noted_parts, read_packets, read_parts, read_streams,
};
pub use recording::{NotedRecording, read_recording};
pub use stop::{Refusal, Stop};
pub use window::{NotedWindow, read_window};
