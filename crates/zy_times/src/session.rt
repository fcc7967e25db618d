//! A session of a connection.

/// The moments at which a session's commands were sent, and those at which its marks had come.
#[derive(Drop)]
pub(crate) struct Session {
    pub(crate) sent: Vec<u32>,
    pub(crate) marks: Vec<u32>,
}
