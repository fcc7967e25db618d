//! The sessions of one connection.
ghost use Rattle.std.specs.Prelude.{◌≡◌, ◌<◌, ◌≤◌, ◌^◌, [], ◌∷◌, ◌++◌, length, OnOk, OnErr, IfErr};
ghost use Rattle.std.specs.List.{slice_index_or};
ghost use Rattle.zy_capture.specs.Streams.{last_session, last_grown};

use std::alloc::Global;
use std::marker::Model;
use std::mem;
use zy_base::{Blob, NoMemory};

/// The bytes of a connection's sessions, the last of which may grow. Contracts see it as their list.
#[derive(Drop)]
pub(crate) struct Sessions {
    before: Vec<Blob>,
    last: Blob,
}

impl Model for Sessions {
    ghost use Rattle.std.specs.Prelude.{◌<◌, ◌^◌, List, ℕ, [], ◌∷◌, ◌++◌, length};

    ghost Value = { List (List ℕ) };

    ghost view = { λ s. s.before.items ++ s.last ∷ [] };

    ghost invariant = { λ s. length s.before.items < 2 ^ 31 };
}

impl Sessions {
    // Begins with one session, which has these bytes.
    pub(crate) fn one(alloc: Global, bytes: Blob) -> Sessions
        ensures value { result ≡ bytes ∷ [] }
    {
        Sessions {
            before: Vec::new(alloc),
            last: bytes,
        }
    }

    // Appends the bytes to the last session.
    pub(crate) fn grow_last(&mut self, bytes: &[u8]) -> Result<(), NoMemory>
        ensures ok { OnOk result (self.new ≡ last_grown self.old bytes.now) }
        ensures err { OnErr result (self.new ≡ self.old) }
    {
        self.last.append(bytes)
    }

    // Begins a session with these bytes; if allocation fails they are handed back.
    pub(crate) fn push(&mut self, bytes: Blob) -> Result<(), (Blob, NoMemory)>
        requires room { length self.old < 2 ^ 31 }
        ensures ok { OnOk result (self.new ≡ self.old ++ bytes ∷ []) }
        ensures err { OnErr result (self.new ≡ self.old) }
        ensures returned { IfErr result (λ e. e.0 ≡ bytes) }
    {
        if self.before.reserve(1).is_err() {
            return Err((bytes, NoMemory));
        }
        let ended = mem::replace(&mut self.last, bytes);
        self.before.push_reserved(ended);
        Ok(())
    }

    // Returns the bytes of the last session.
    pub(crate) fn into_last(self) -> Blob
        ensures value { result ≡ last_session self }
    {
        self.last
    }

    // Returns the number of sessions.
    pub(crate) fn count(&self) -> u32
        ensures value { result ≡ length self.now }
        ensures some { 0 < result }
        ensures limit { result ≤ 2 ^ 31 }
    {
        self.before.len() as u32 + 1
    }

    // Returns the bytes of a session.
    pub(crate) fn bytes(&self, session: u32) -> &[u8]
        requires within { session < length self.now }
        ensures value { result.now ≡ slice_index_or self.now session [] }
    {
        if (session as usize) < self.before.len() {
            self.before[session as usize].bytes()
        } else {
            self.last.bytes()
        }
    }
}
