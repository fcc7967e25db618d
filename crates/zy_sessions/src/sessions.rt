//! The sessions of a capture, which are noted while its records come.
ghost use Rattle.std.specs.Prelude.{◌≡◌, ◌↔◌, ◌+◌, ◌<◌, ℕ, true, List, [], ◌∷◌, ◌++◌, length};
ghost use Rattle.std.specs.Prelude.{OnOk, IfOk, option_copied};
ghost use Rattle.zy_capture.specs.declared.record.Record.{Record};
ghost use Rattle.zy_capture.specs.declared.record.Record.TheVariants as Kinds;
ghost use Rattle.zy_input.specs.Parts.{conn_of};
ghost use Rattle.zy_sessions.specs.Sessions.{SessionsHold, session_at};
ghost use Rattle.zy_verdict.specs.Losses.{HasExptimeIn};

use crate::line::Line;
use crate::session::Session;
use std::alloc::Global;
use std::collections::BTreeSet;
use zy_base::{Blob, NoMemory};
use zy_capture::{Record, Segment};

/// The sessions of each connection of a capture.
#[derive(Drop)]
pub struct Sessions {
    alloc: Global,
    moment: u32,
    /// The connections, in order.
    pub lines: Vec<Line>,
    /// The keys to which some command gives an exptime other than 0.
    pub lasting: BTreeSet<Blob>,
}

impl Sessions {
    /// Begins before any record, with this number of connections.
    pub fn new(alloc: Global, count: u32) -> Result<Sessions, NoMemory>
        ensures none { IfOk result (λ sessions. SessionsHold sessions count []) }
    {
        let Ok(mut lines) = Vec::with_capacity(alloc, count as usize) else {
            return Err(NoMemory);
        };
        for _ in 0..count {
            lines.push_reserved(Line::new(alloc)?);
        }
        Ok(Sessions {
            alloc,
            moment: 0,
            lines,
            lasting: BTreeSet::new(alloc),
        })
    }

    /// Takes the next record.
    pub fn take(&mut self, item: &Record) -> Result<(), NoMemory>
        requires within { conn_of item.now < length self.old.lines.items }
        ensures kept { OnOk result ((count : ℕ) (records : List Record) → SessionsHold self.old count records
            → SessionsHold self.new count (records ++ item.now ∷ [])) }
    {
        let Some(moment) = self.moment.checked_add(1) else {
            return Err(NoMemory);
        };
        match item {
            Record::Segment(segment) => self.take_segment(segment, moment),
            Record::Close { conn } => self.take_close(*conn, moment),
        }
    }

    // Takes a segment, which had come at this moment.
    fn take_segment(&mut self, segment: &Segment, moment: u32) -> Result<(), NoMemory>
        requires within { segment.now.conn < length self.old.lines.items }
        requires next { moment ≡ self.old.moment + 1 }
        ensures kept { OnOk result ((count : ℕ) (records : List Record) → SessionsHold self.old count records
            → SessionsHold self.new count (records ++ Kinds.Segment segment.now ∷ [])) }
    {
        self.lines[segment.conn as usize].take(self.alloc, &mut self.lasting, segment, moment)?;
        self.moment = moment;
        Ok(())
    }

    // Takes a close record, which had come at this moment.
    fn take_close(&mut self, conn: u32, moment: u32) -> Result<(), NoMemory>
        requires within { conn < length self.old.lines.items }
        requires next { moment ≡ self.old.moment + 1 }
        ensures kept { OnOk result ((count : ℕ) (records : List Record) → SessionsHold self.old count records
            → SessionsHold self.new count (records ++ Kinds.Close conn ∷ [])) }
    {
        self.lines[conn as usize].close(self.alloc, conn)?;
        self.moment = moment;
        Ok(())
    }

    /// Returns a session of a connection, if it is among the notes.
    pub fn session(&self, conn: u32, session: u64) -> Option<&Session>
        ensures value { option_copied result ≡ session_at self.now conn session }
    {
        let line = self.lines.get(conn as usize)?;
        line.sessions.get(session as usize)
    }

    /// Checks whether some command gives the key an exptime other than 0.
    pub fn has_exptime(&self, key: &Blob) -> bool
        ensures exact { (count : ℕ) (records : List Record) → SessionsHold self.now count records
            → (result ≡ true ↔ HasExptimeIn records key.now) }
    {
        self.lasting.contains(key)
    }
}
