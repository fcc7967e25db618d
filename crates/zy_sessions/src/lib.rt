//! Notes the commands and marks of each session while a capture is read.
#![tactic(auto)]

mod exptime;
mod laws;
mod line;
mod notes;
mod noting;
mod session;
mod sessions;

pub use laws::{
    a_command_is_sent_from_its_moment, a_session_not_noted_has_nothing, moments_never_fall,
};
pub use line::Line;
pub use session::Session;
pub use sessions::Sessions;
