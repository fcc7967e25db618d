//! What is noted of a capture's records besides its streams.
ghost use Rattle.std.specs.Prelude.{◌≡◌, ◌<◌, ◌≤◌, ℕ, List, [], ◌∷◌, ◌++◌, IfOk, OnOk, ⊤};
ghost use Rattle.zy_capture.specs.declared.record.Record.{Record};
ghost use Rattle.zy_capture.specs.Capture.{connection_limit};
ghost use Rattle.zy_input.specs.Parts.{conn_of};

use std::alloc::Global;
use zy_base::NoMemory;
use zy_capture::{Record, Streams};

/// Notes on the records of a capture, which are taken while it is read.
pub trait Notes: Drop {
    /// These are notes on the records of a capture with this many connections.
    ghost holds: { Self → ℕ → List Record → Type 0 };

    /// Begins the notes, without a record, on a capture with this many connections.
    fn begin(alloc: Global, count: u32) -> Result<Self, NoMemory>
        requires few { count ≤ connection_limit }
        ensures none { IfOk result (λ notes. holds notes count []) };

    /// Takes notes on the next record, which is of one of the connections.
    fn add(&mut self, item: &Record) -> Result<(), NoMemory>
        requires next { (count : ℕ) × (given : List Record) × holds self.old count given
            × (conn_of item.now < count) }
        ensures kept { OnOk result ((count : ℕ) (given : List Record) → holds self.old count given
            → conn_of item.now < count → holds self.new count (given ++ item.now ∷ [])) };
}

/// No notes.
#[derive(Drop)]
pub struct NoNotes;

impl Notes for NoNotes {
    ghost holds = { λ notes count given. ⊤ };

    fn begin(_alloc: Global, _count: u32) -> Result<NoNotes, NoMemory> {
        Ok(NoNotes)
    }

    fn add(&mut self, _item: &Record) -> Result<(), NoMemory> {
        Ok(())
    }
}

/// The streams of a capture, and the notes on its records.
#[derive(Drop)]
pub struct Noted<N: Notes> {
    /// The streams of the capture.
    pub streams: Streams,
    /// The notes on its records.
    pub notes: N,
}

impl<N: Notes> Noted<N> {
    // Returns only the streams.
    pub(crate) fn into_streams(self) -> Streams
        ensures value { result ≡ self.streams }
    {
        let Noted { streams, notes } = self;
        drop(notes);
        streams
    }
}
