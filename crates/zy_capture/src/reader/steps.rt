//! The step of the reader of captures at each byte, by what is expected.
ghost use Rattle.std.specs.Prelude.{◌≡◌, ◌+◌, ◌<◌, ◌≤◌, [], ◌∷◌, length, Err, None};
ghost use Rattle.zy_read.specs.declared.not_taken.NotTaken.TheVariants.{Fault};
ghost use Rattle.zy_read.specs.Fields.{grown_by, field_step, is_full};
ghost use Rattle.zy_read.specs.FieldsLasting.{lasting};
ghost use Rattle.zy_capture.specs.declared.due.Due.TheVariants as Dues;
ghost use Rattle.zy_capture.specs.Capture.{capture_limit};
ghost use Rattle.zy_capture.specs.Steps.{fields, to, after_field, broken_by};
ghost use Rattle.zy_capture.specs.Verdict.{Verdict, captures, good};
ghost use Rattle.zy_capture.specs.Verdict.Verdict.{Bad};
ghost use Rattle.zy_capture.specs.Standing.{Takes, IsDueInBounds, IsFour, IsLengthEnd};

use super::Reader;
use crate::capture_fault::{CaptureFault, FeedFault};
use crate::due::Due;
use crate::record::{Record, Segment};
use std::mem;
use zy_base::{Blob, CONNECTION_LIMIT, Filling};
use zy_read::{MagicPart, MagicStep, Reads};

pub(super) const CAPTURE_LIMIT: u64 = 4_294_967_295;

// The bytes of a segment before the last one of its length.
pub(super) const HEAD: usize = 8;

const LETTERS: &[u8; 6] = b"ZYGCAP";

pub(super) const SEGMENT_LIMIT: u32 = 65_535;

impl Reads for Reader {
    type Gives = Record;

    type Fault = CaptureFault;

    ghost Verdict = { Verdict };

    ghost format = { captures };

    ghost wants = { IsLengthEnd };

    fn step(&mut self, byte: u8) -> Result<Option<Record>, FeedFault> {
        if let Some(fault) = self.fault {
            return Err(FeedFault::Fault(fault));
        }
        if self.is_full() {
            return self.refuse(CaptureFault::TooLong);
        }
        match self.state.due {
            Due::Payload { conn, others } => self.feed_payload(conn, others, byte),
            Due::Tag => self.feed_tag(byte),
            Due::Magic(part) => self.feed_magic(part, byte),
            Due::Nothing => self.refuse(CaptureFault::Trailing { at: self.at }),
            _ => self.feed_number(byte),
        }
    }

    // Takes bytes of a segment, but not its last one, or the first bytes of one.
    #[tactic(auto, using(zy_read::proofs::FieldLemmas::run_fed, zy_read::proofs::Feeding::fed_none))]
    fn take_run(&mut self, bytes: &[u8], at: usize) -> usize {
        if self.fault.is_some() {
            return 0;
        }
        match self.state.due {
            Due::Payload { conn, others } if self.at < CAPTURE_LIMIT => {
                let left = others as usize - self.payload.len();
                let room = (CAPTURE_LIMIT - self.at) as usize;
                let run = left.min(room).min(bytes.len() - at - 1);
                self.append(conn, others, &bytes[at..at + run]);
                run
            }
            Due::Tag if bytes.len() - at > HEAD => {
                if self.take_head(&bytes[at..at + HEAD]) {
                    HEAD
                } else {
                    0
                }
            }
            _ => 0,
        }
    }

    ghost lasting = { lasting fields good Bad };
}

impl Reader {
    // Takes bytes of a segment, but not its last one.
    fn append(&mut self, conn: u32, others: u32, bytes: &[u8])
        requires due { self.old.state.due ≡ Dues.Payload conn others }
        requires none { self.old.fault ≡ None }
        requires fits { length self.old.seen + length bytes.now ≤ others }
        requires room { self.old.at + length bytes.now ≤ capture_limit }
        ensures value { self.new ≡ grown_by self.old bytes.now }
    {
        // There is room, which was reserved at the end of the length.
        self.payload.append(bytes);
        self.at += bytes.len() as u64;
    }

    // Checks whether the capture has its most bytes, and its end was not read.
    fn is_full(&self) -> bool
        ensures value { result ≡ is_full fields self.now }
    {
        self.at >= CAPTURE_LIMIT && !matches!(self.state.due, Due::Nothing)
    }

    // Goes on after the last byte of a field.
    #[tactic(auto, using(crate::proofs::Bounds::within_any, crate::proofs::Bounds::none_seen))]
    fn go_on(&mut self, due: Due)
        requires none { self.old.fault ≡ None }
        requires room { self.old.at < capture_limit }
        requires within { IsDueInBounds due (self.old.at + 1) [] [] 0 }
        ensures value { self.new ≡ after_field self.old (to self.old.state due) }
    {
        self.state.due = due;
        self.field.clear();
        self.at += 1;
    }

    // Keeps a byte of a number that is not the last one.
    #[tactic(auto, using(crate::proofs::Bounds::number_seen, crate::proofs::Bounds::number_within))]
    fn keep(&mut self, byte: u8)
        requires none { self.old.fault ≡ None }
        requires room { self.old.at < capture_limit }
        requires number { IsFour self.old.state.due }
        requires short { length self.old.seen < 3 }
        ensures value { self.new ≡ grown_by self.old (byte ∷ []) }
    {
        self.field.push(byte);
        self.at += 1;
    }

    // Keeps the fault of a byte, and answers it.
    #[tactic(auto, using(crate::proofs::Bounds::nothing_seen))]
    fn refuse(&mut self, fault: CaptureFault) -> Result<Option<Record>, FeedFault>
        ensures value { result ≡ Err (Fault fault) }
        ensures state { self.new ≡ broken_by self.old fault }
    {
        self.field.clear();
        drop(mem::replace(&mut self.payload, Filling::new(self.alloc)));
        self.fault = Some(fault);
        Err(FeedFault::Fault(fault))
    }

    // Takes a byte of the magic.
    fn feed_magic(&mut self, part: MagicPart, byte: u8) -> Result<Option<Record>, FeedFault>
        requires due { self.old.state.due ≡ Dues.Magic part }
        requires none { self.old.fault ≡ None }
        requires room { self.old.at < capture_limit }
        ensures value { Takes (field_step fields self.old byte) self.old self.new byte result }
    {
        match part.step(LETTERS, self.at, byte) {
            MagicStep::Next(next) => self.go_on(Due::Magic(next)),
            MagicStep::Whole { version } => {
                self.state.version = version;
                self.go_on(Due::Count);
            }
            MagicStep::Wrong => return self.refuse(CaptureFault::BadMagic { at: self.at }),
        }
        Ok(None)
    }

    // Takes the tag of a record, or the end.
    fn feed_tag(&mut self, byte: u8) -> Result<Option<Record>, FeedFault>
        requires due { self.old.state.due ≡ Dues.Tag }
        requires none { self.old.fault ≡ None }
        requires room { self.old.at < capture_limit }
        ensures value { Takes (field_step fields self.old byte) self.old self.new byte result }
    {
        let may_close = self.state.version == 2;
        if byte == b'S' {
            self.go_on(Due::Connection);
        } else if byte == b'E' {
            self.go_on(Due::Nothing);
        } else if byte == b'C' && may_close {
            self.go_on(Due::Closed);
        } else {
            return self.refuse(CaptureFault::BadTag { at: self.at, byte });
        }
        Ok(None)
    }

    // Takes a byte of a number.
    fn feed_number(&mut self, byte: u8) -> Result<Option<Record>, FeedFault>
        requires number { IsFour self.old.state.due }
        requires none { self.old.fault ≡ None }
        requires room { self.old.at < capture_limit }
        ensures value { Takes (field_step fields self.old byte) self.old self.new byte result }
    {
        if self.field.len() < 3 {
            self.keep(byte);
            return Ok(None);
        }
        match self.state.due {
            Due::Connection => self.end_connection(byte),
            Due::Length { conn } => self.end_length(conn, byte),
            Due::Closed => self.end_closed(byte),
            Due::Count => self.end_count(byte),
            _ => unreachable!(),
        }
    }

    // Takes the last byte of the connection count.
    fn end_count(&mut self, byte: u8) -> Result<Option<Record>, FeedFault>
        requires due { self.old.state.due ≡ Dues.Count }
        requires last { length self.old.seen ≡ 3 }
        requires none { self.old.fault ≡ None }
        requires room { self.old.at < capture_limit }
        ensures value { Takes (field_step fields self.old byte) self.old self.new byte result }
    {
        let number = self.field.number(byte);
        if number > CONNECTION_LIMIT {
            return self.refuse(CaptureFault::ConnCount { number });
        }
        self.state.count = number;
        self.go_on(Due::Tag);
        Ok(None)
    }

    // Takes the last byte of the connection of a segment.
    fn end_connection(&mut self, byte: u8) -> Result<Option<Record>, FeedFault>
        requires due { self.old.state.due ≡ Dues.Connection }
        requires last { length self.old.seen ≡ 3 }
        requires none { self.old.fault ≡ None }
        requires room { self.old.at < capture_limit }
        ensures value { Takes (field_step fields self.old byte) self.old self.new byte result }
    {
        let conn = self.field.number(byte);
        if conn >= self.state.count {
            return self.refuse(CaptureFault::ConnRange {
                at: self.at - 3,
                number: conn,
            });
        }
        self.go_on(Due::Length { conn });
        Ok(None)
    }

    // Takes the last byte of the connection of a close record.
    fn end_closed(&mut self, byte: u8) -> Result<Option<Record>, FeedFault>
        requires due { self.old.state.due ≡ Dues.Closed }
        requires last { length self.old.seen ≡ 3 }
        requires none { self.old.fault ≡ None }
        requires room { self.old.at < capture_limit }
        ensures value { Takes (field_step fields self.old byte) self.old self.new byte result }
    {
        let number = self.field.number(byte);
        if number >= self.state.count {
            return self.refuse(CaptureFault::ConnRange {
                at: self.at - 3,
                number,
            });
        }
        self.go_on(Due::Tag);
        Ok(Some(Record::Close { conn: number }))
    }

    // Takes the last byte of the length of a segment. It needs memory.
    fn end_length(&mut self, conn: u32, byte: u8) -> Result<Option<Record>, FeedFault>
        requires due { self.old.state.due ≡ Dues.Length conn }
        requires last { length self.old.seen ≡ 3 }
        requires none { self.old.fault ≡ None }
        requires room { self.old.at < capture_limit }
        ensures value { Takes (field_step fields self.old byte) self.old self.new byte result }
    {
        let length = self.field.number(byte);
        if length > SEGMENT_LIMIT {
            let at = self.at - 3;
            return self.refuse(CaptureFault::SegmentLength { at, number: length });
        }
        if length == 0 {
            self.go_on(Due::Tag);
            return Ok(Some(Record::Segment(Segment {
                conn,
                bytes: Blob::new(self.alloc),
            })));
        }
        match Filling::with_room(self.alloc, length as usize) {
            Ok(bytes) => {
                self.begin_segment(conn, length - 1, bytes);
                Ok(None)
            }
            Err(_) => Err(FeedFault::NoMemory),
        }
    }

    // Goes on after the length of a segment that has bytes, with room for them.
    fn begin_segment(&mut self, conn: u32, others: u32, room: Filling)
        requires none { self.old.fault ≡ None }
        requires room { self.old.at < capture_limit }
        requires fits { others < room.room }
        requires empty { room.bytes ≡ [] }
        ensures value { self.new ≡ after_field self.old (to self.old.state (Dues.Payload conn others)) }
    {
        drop(mem::replace(&mut self.payload, room));
        self.state.due = Due::Payload { conn, others };
        self.field.clear();
        self.at += 1;
    }

    // Takes a byte of a segment.
    fn feed_payload(
        &mut self,
        conn: u32,
        others: u32,
        byte: u8,
    ) -> Result<Option<Record>, FeedFault>
        requires due { self.old.state.due ≡ Dues.Payload conn others }
        requires none { self.old.fault ≡ None }
        requires room { self.old.at < capture_limit }
        ensures value { Takes (field_step fields self.old byte) self.old self.new byte result }
    {
        self.payload.push(byte);
        self.at += 1;
        if self.payload.len() <= others as usize {
            return Ok(None);
        }
        self.state.due = Due::Tag;
        self.field.clear();
        let bytes = mem::replace(&mut self.payload, Filling::new(self.alloc));
        Ok(Some(Record::Segment(Segment {
            conn,
            bytes: bytes.into_blob(),
        })))
    }
}
