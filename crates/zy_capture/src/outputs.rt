//! The outputs of all connections.
ghost use Rattle.std.specs.Prelude.{◌≡◌, ◌⊎◌, ◌<◌, ◌≤◌, ◌^◌, [], ◌∷◌, ◌++◌, length, OnOk, OnErr, IfErr};
ghost use Rattle.std.specs.List.{slice_index_or};
ghost use Rattle.zy_capture.specs.Capture.{connection_limit};
ghost use Rattle.zy_capture.specs.Streams.{sessions_of};
ghost use Rattle.zy_capture.specs.Outputs.{AreOutputs, MayAdd, with_output};

use crate::sessions::Sessions;
use std::alloc::Global;
use std::marker::Model;
use zy_base::{Blob, NoMemory};

/// The output of each session of each connection. Contracts see it as the version, and the list of
/// the connections' lists of outputs.
#[derive(Drop)]
pub struct Outputs {
    alloc: Global,
    version: u32,
    connections: Vec<Sessions>,
}

impl Model for Outputs {
    ghost use Rattle.zy_capture.specs.Outputs.{AllOutputs, AreOutputs};

    ghost Value = { AllOutputs };

    ghost view = { λ o. record { version = o.version; sessions = o.connections.items } };

    ghost invariant = { λ o. AreOutputs (record {
      version = o.version;
      sessions = o.connections.items;
    }) };
}

impl Outputs {
    /// Begins without an output, in version 1 or 2. Takes no memory.
    pub fn new(alloc: Global, version: u32) -> Outputs
        requires version { (version ≡ 1) ⊎ (version ≡ 2) }
        ensures version { result.version ≡ version }
        ensures none { result.sessions ≡ [] }
    {
        Outputs {
            alloc,
            version,
            connections: Vec::new(alloc),
        }
    }

    /// Adds the output of the next connection's first session or, in version 2, of the last
    /// connection's next session. If allocation fails it is handed back.
    pub fn add(&mut self, conn: u32, bytes: Blob) -> Result<(), (Blob, NoMemory)>
        requires next { MayAdd self.old conn }
        ensures ok { OnOk result (self.new ≡ with_output self.old conn bytes) }
        ensures err { OnErr result (self.new ≡ self.old) }
        ensures returned { IfErr result (λ e. e.0 ≡ bytes) }
    {
        if (conn as usize) < self.connections.len() {
            return self.connections[conn as usize].push(bytes);
        }
        match self.connections.push(Sessions::one(self.alloc, bytes)) {
            Ok(()) => Ok(()),
            Err(refused) => Err((refused.value.into_last(), NoMemory)),
        }
    }

    /// Returns the version, 1 or 2.
    pub fn version(&self) -> u32
        ensures value { result ≡ self.now.version }
        ensures known { (result ≡ 1) ⊎ (result ≡ 2) }
        ensures lawful { AreOutputs self.now }
    {
        self.version
    }

    /// Returns the number of connections that have an output.
    pub fn count(&self) -> u32
        ensures value { result ≡ length self.now.sessions }
        ensures limit { result ≤ connection_limit }
    {
        self.connections.len() as u32
    }

    /// Returns the number of sessions of a connection.
    pub fn sessions(&self, conn: u32) -> u32
        requires within { conn < length self.now.sessions }
        ensures value { result ≡ length (sessions_of self.now.sessions conn) }
        ensures some { 0 < result }
        ensures limit { result ≤ 2 ^ 31 }
    {
        self.connections[conn as usize].count()
    }

    /// Returns the output of a session of a connection.
    pub fn output(&self, conn: u32, session: u32) -> &[u8]
        requires within { conn < length self.now.sessions }
        requires session { session < length (sessions_of self.now.sessions conn) }
        ensures value { result.now ≡ slice_index_or (sessions_of self.now.sessions conn)
            session [] }
    {
        self.connections[conn as usize].bytes(session)
    }
}
