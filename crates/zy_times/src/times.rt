//! The times of a capture, which are kept while its records come.
ghost use Rattle.std.specs.Prelude.{◌≡◌, ◌+◌, ◌<◌, ℕ, List, [], ◌∷◌, ◌++◌, length, OnOk, IfOk};
ghost use Rattle.zy_capture.specs.declared.record.Record.{Record};
ghost use Rattle.zy_capture.specs.declared.record.Record.TheVariants as Kinds;
ghost use Rattle.zy_input.specs.Parts.{conn_of};
ghost use Rattle.zy_times.specs.Line.{TimesHold};

use crate::line::Line;
use std::alloc::Global;
use zy_base::NoMemory;
use zy_capture::{Record, Segment};

/// For each connection of a capture, when its commands were sent and its marks came.
#[derive(Drop)]
pub struct Times {
    alloc: Global,
    moment: u32,
    pub(crate) lines: Vec<Line>,
}

impl Times {
    /// Begins before any record, with this number of connections.
    pub fn new(alloc: Global, count: u32) -> Result<Times, NoMemory>
        ensures none { IfOk result (λ times. TimesHold times count []) }
    {
        let Ok(mut lines) = Vec::with_capacity(alloc, count as usize) else {
            return Err(NoMemory);
        };
        for _ in 0..count {
            lines.push_reserved(Line::new(alloc)?);
        }
        Ok(Times {
            alloc,
            moment: 0,
            lines,
        })
    }

    /// Takes the next record.
    pub fn take(&mut self, item: &Record) -> Result<(), NoMemory>
        requires within { conn_of item.now < length self.old.lines.items }
        ensures kept { OnOk result ((count : ℕ) (records : List Record) → TimesHold self.old count records
            → TimesHold self.new count (records ++ item.now ∷ [])) }
    {
        let Some(moment) = self.moment.checked_add(1) else {
            return Err(NoMemory);
        };
        match item {
            Record::Segment(segment) => self.take_segment(segment, moment),
            Record::Close { conn } => self.take_close(*conn, moment),
        }
    }

    // Takes a segment, which had come at this moment.
    fn take_segment(&mut self, segment: &Segment, moment: u32) -> Result<(), NoMemory>
        requires within { segment.now.conn < length self.old.lines.items }
        requires next { moment ≡ self.old.moment + 1 }
        ensures kept { OnOk result ((count : ℕ) (records : List Record) → TimesHold self.old count records
            → TimesHold self.new count (records ++ Kinds.Segment segment.now ∷ [])) }
    {
        self.lines[segment.conn as usize].take(self.alloc, segment, moment)?;
        self.moment = moment;
        Ok(())
    }

    // Takes a close record, which had come at this moment.
    fn take_close(&mut self, conn: u32, moment: u32) -> Result<(), NoMemory>
        requires within { conn < length self.old.lines.items }
        requires next { moment ≡ self.old.moment + 1 }
        ensures kept { OnOk result ((count : ℕ) (records : List Record) → TimesHold self.old count records
            → TimesHold self.new count (records ++ Kinds.Close conn ∷ [])) }
    {
        self.lines[conn as usize].close(self.alloc, conn)?;
        self.moment = moment;
        Ok(())
    }
}
