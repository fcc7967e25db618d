//! The streams of a capture.
ghost use Rattle.std.specs.Prelude.{◌≡◌, ◌<◌, ◌≤◌, ◌^◌, [], ◌∷◌, ◌++◌, length, IfOk, OnOk, OnErr};
ghost use Rattle.std.specs.List.{slice_index_or};
ghost use Rattle.zy_capture.specs.Capture.{connection_limit};
ghost use Rattle.zy_capture.specs.Streams.{no_bytes, sessions_of, grown, closed};

use crate::record::Segment;
use crate::sessions::Sessions;
use std::alloc::Global;
use std::marker::Model;
use zy_base::{Blob, NoMemory};

/// The bytes of each session of each connection. Contracts see it as the list of the connections'
/// lists of sessions.
#[derive(Drop)]
pub struct Streams {
    alloc: Global,
    connections: Vec<Sessions>,
}

impl Model for Streams {
    ghost use Rattle.std.specs.Prelude.{◌≤◌, List, ℕ, length};
    ghost use Rattle.zy_capture.specs.Capture.{connection_limit};

    ghost Value = { List (List (List ℕ)) };

    ghost view = { λ s. s.connections.items };

    ghost invariant = { λ s. length s.connections.items ≤ connection_limit };
}

impl Streams {
    /// Gives each of `count` connections one empty session.
    pub fn new(alloc: Global, count: u32) -> Result<Streams, NoMemory>
        requires limit { count ≤ connection_limit }
        ensures value { IfOk result (λ streams. streams ≡ no_bytes count) }
    {
        let mut connections = match Vec::with_capacity(alloc, count as usize) {
            Ok(connections) => connections,
            Err(_) => return Err(NoMemory),
        };
        for _ in 0..count {
            connections.push_reserved(Sessions::one(alloc, Blob::new(alloc)));
        }
        Ok(Streams { alloc, connections })
    }

    /// Appends a segment to the last session of its connection.
    pub fn add(&mut self, segment: &Segment) -> Result<(), NoMemory>
        requires within { segment.now.conn < length self.old }
        ensures ok { OnOk result (self.new ≡ grown self.old segment.now.conn segment.now.bytes) }
        ensures err { OnErr result (self.new ≡ self.old) }
    {
        self.connections[segment.conn as usize].grow_last(segment.bytes.bytes())
    }

    /// Begins an empty session of a connection.
    pub fn close(&mut self, conn: u32) -> Result<(), NoMemory>
        requires within { conn < length self.old }
        requires room { length (sessions_of self.old conn) < 2 ^ 31 }
        ensures ok { OnOk result (self.new ≡ closed self.old conn) }
        ensures err { OnErr result (self.new ≡ self.old) }
    {
        match self.connections[conn as usize].push(Blob::new(self.alloc)) {
            Ok(()) => Ok(()),
            Err(_) => Err(NoMemory),
        }
    }

    /// Returns the number of connections.
    pub fn count(&self) -> u32
        ensures value { result ≡ length self.now }
        ensures limit { result ≤ connection_limit }
    {
        self.connections.len() as u32
    }

    /// Returns the number of sessions of a connection.
    pub fn sessions(&self, conn: u32) -> u32
        requires within { conn < length self.now }
        ensures value { result ≡ length (sessions_of self.now conn) }
        ensures some { 0 < result }
        ensures limit { result ≤ 2 ^ 31 }
    {
        self.connections[conn as usize].count()
    }

    /// Returns the bytes of a session of a connection.
    pub fn stream(&self, conn: u32, session: u32) -> &[u8]
        requires within { conn < length self.now }
        requires session { session < length (sessions_of self.now conn) }
        ensures value { result.now ≡ slice_index_or (sessions_of self.now conn) session [] }
    {
        self.connections[conn as usize].bytes(session)
    }
}
