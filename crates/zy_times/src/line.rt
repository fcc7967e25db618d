//! The times of one connection.
ghost use Rattle.std.specs.Prelude.{◌≡◌, ◌≢◌, ◌+◌, ℕ, List, [], ◌∷◌, ◌++◌, length, OnOk, IfOk};
ghost use Rattle.zy_capture.specs.declared.record.Record.{Record};
ghost use Rattle.zy_capture.specs.declared.record.Record.TheVariants as Kinds;
ghost use Rattle.zy_times.specs.Line.{LineHolds, BeginsNext};

use crate::moments::push_many;
use crate::session::Session;
use std::alloc::Global;
use std::mem;
use zy_base::NoMemory;
use zy_capture::Segment;
use zy_frame::{Framer, Frames};

/// What came on a connection so far: its sessions, the last of which goes on.
#[derive(Drop)]
pub struct Line {
    framer: Framer,
    pub(crate) sessions: Vec<Session>,
}

impl Line {
    // Begins before any record.
    pub(crate) fn new(alloc: Global) -> Result<Line, NoMemory>
        ensures none { IfOk result (λ line. (conn : ℕ) → LineHolds [] conn line) }
    {
        let mut sessions = Vec::new(alloc);
        begin_session(alloc, &mut sessions)?;
        Ok(Line {
            framer: Framer::new(alloc),
            sessions,
        })
    }

    // Takes a segment of this connection, which had come at this moment.
    pub(crate) fn take(
        &mut self,
        alloc: Global,
        segment: &Segment,
        moment: u32,
    ) -> Result<(), NoMemory>
        ensures kept { OnOk result ((records : List Record) → LineHolds records segment.now.conn self.old
            → moment ≡ length records + 1
            → LineHolds (records ++ Kinds.Segment segment.now ∷ []) segment.now.conn self.new) }
    {
        if segment.bytes.bytes().is_empty() {
            self.mark(segment, moment)
        } else {
            self.send(alloc, segment, moment)
        }
    }

    // Takes a segment with bytes.
    fn send(&mut self, alloc: Global, segment: &Segment, moment: u32) -> Result<(), NoMemory>
        requires some { segment.now.bytes ≢ [] }
        ensures kept { OnOk result ((records : List Record) → LineHolds records segment.now.conn self.old
            → moment ≡ length records + 1
            → LineHolds (records ++ Kinds.Segment segment.now ∷ []) segment.now.conn self.new) }
    {
        let Some(last) = self.sessions.len().checked_sub(1) else {
            return Err(NoMemory);
        };
        let mut frames = Frames::new(alloc);
        let fed = self.framer.feed(&segment.bytes, &mut frames);
        let number = frames.len();
        drop(frames);
        fed?;
        push_many(&mut self.sessions[last].sent, moment, number)?;
        Ok(())
    }

    // Takes a segment without bytes, which is a mark of the last session.
    fn mark(&mut self, segment: &Segment, moment: u32) -> Result<(), NoMemory>
        requires none { segment.now.bytes ≡ [] }
        ensures kept { OnOk result ((records : List Record) → LineHolds records segment.now.conn self.old
            → moment ≡ length records + 1
            → LineHolds (records ++ Kinds.Segment segment.now ∷ []) segment.now.conn self.new) }
    {
        let Some(last) = self.sessions.len().checked_sub(1) else {
            return Err(NoMemory);
        };
        self.sessions[last].marks.push(moment)?;
        Ok(())
    }

    // Takes the close record of this connection.
    pub(crate) fn close(&mut self, alloc: Global, conn: u32) -> Result<(), NoMemory>
        ensures kept { OnOk result ((records : List Record) → LineHolds records conn self.old
            → LineHolds (records ++ Kinds.Close conn ∷ []) conn self.new) }
    {
        begin_session(alloc, &mut self.sessions)?;
        drop(mem::replace(&mut self.framer, Framer::new(alloc)));
        Ok(())
    }
}

// Begins the next session.
fn begin_session(alloc: Global, sessions: &mut Vec<Session>) -> Result<(), NoMemory>
    ensures more { OnOk result (BeginsNext sessions.old.items sessions.new.items) }
{
    sessions.push(Session {
        sent: Vec::new(alloc),
        marks: Vec::new(alloc),
    })?;
    Ok(())
}
