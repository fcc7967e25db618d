//! Reading a capture in pieces.
ghost use Rattle.std.specs.Prelude.{◌≡◌, ◌<◌, ◌≤◌, ℕ, List, [], length, true, Ok, Some};
ghost use Rattle.std.specs.Prelude.{IfOk, IfErr, IfSome, IfNone};
ghost use Rattle.zy_capture.specs.declared.record.Record.{Record};
ghost use Rattle.zy_capture.specs.declared.record.Record.TheVariants as Kinds;
ghost use Rattle.zy_capture.specs.Standing.{StandsForRecords};
ghost use Rattle.zy_feed.specs.Reads.{IsUnread, HasRead, HasBegun, StopsIntakeBy, TellsHeader};
ghost use Rattle.zy_feed.specs.Reads.{TellsNoHeader, Cuts, RefillsIntake, TakesFirst, HoldsRecord};

use crate::stop::Stop;
use std::alloc::Global;
use std::marker::Model;
use zy_base::{NoMemory, Source};
use zy_capture::{CaptureFault, FeedFault, Held, Reader, Record, Segment, begins_with_record};
use zy_read::{Fed, Pieces};

/// What a capture begins with.
#[derive(Clone, Copy, PartialEq, Eq)]
pub struct Header {
    /// The version, 1 or 2.
    pub version: u32,
    /// How many connections it has.
    pub count: u32,
}

/// A capture that is read in pieces of 64 KiB. Contracts see how far its reader is, and the bytes
/// of the piece that were not fed to it yet.
#[derive(Drop)]
pub struct Intake {
    reader: Reader,
    pieces: Pieces,
}

impl Model for Intake {
    ghost use Rattle.zy_feed.specs.Reads.{Intake, in_pieces};

    ghost Value = { Intake };

    ghost view = { λ i. in_pieces i.reader i.pieces };
}

impl Intake {
    /// Reads the magic and the count of the source's capture, and no record.
    pub fn begin<S: Source>(alloc: Global, source: &mut S) -> Result<(Intake, Header), Stop>
        ensures ok { IfOk result (λ begun.
            HasBegun S.rest S.faults source.old source.new begun.0 begun.1) }
        ensures stopped { IfErr result (λ stop.
            StopsIntakeBy S.rest S.faults source.old source.new stop) }
        ensures count { S.faults source.old ≤ S.faults source.new }
    {
        let mut intake = Intake::new(alloc)?;
        match intake.read_header(source) {
            Ok(header) => Ok((intake, header)),
            Err(stop) => Err(stop),
        }
    }

    fn new(alloc: Global) -> Result<Intake, NoMemory>
        ensures ok { IfOk result (λ intake. IsUnread intake) }
    {
        let pieces = Pieces::new(alloc)?;
        Ok(Intake {
            reader: Reader::new(alloc),
            pieces,
        })
    }

    // Reads byte after byte until version and count are known.
    fn read_header<S: Source>(&mut self, source: &mut S) -> Result<Header, Stop>
        requires fresh { IsUnread self.old }
        ensures ok { IfOk result (λ header.
            HasBegun S.rest S.faults source.old source.new self.new header) }
        ensures stopped { IfErr result (λ stop.
            StopsIntakeBy S.rest S.faults source.old source.new stop) }
        ensures count { S.faults source.old ≤ S.faults source.new }
    {
        for _ in 0..u64::MAX {
            if let Some(header) = self.header() {
                return Ok(header);
            }
            if !self.refill(source)? {
                unreachable!();
            }
            match self.feed_one()? {
                None => {}
                Some(_) => unreachable!(),
            }
        }
        // No capture has this many bytes.
        unreachable!()
    }

    // Returns version and count, if both are known.
    fn header(&self) -> Option<Header>
        ensures some { IfSome result (λ header. (given : List Record) (b : List ℕ)
            → StandsForRecords self.now.reader given b → TellsHeader b header) }
        ensures none { IfNone result ((given : List Record) (b : List ℕ)
            → StandsForRecords self.now.reader given b → TellsNoHeader b) }
    {
        let version = self.reader.version()?;
        let count = self.reader.count()?;
        Some(Header { version, count })
    }

    /// Cuts the next record, and reads the pieces that it needs for that; `None` if the capture
    /// is whole.
    pub fn cut<S: Source>(&mut self, source: &mut S) -> Result<Option<Record>, Stop>
        ensures value { (first : S) (records : List Record) (bytes : List ℕ)
            → HasRead S.rest S.faults first source.old self.old records bytes
            → Cuts S.rest S.faults first source.new self.new records bytes result }
        ensures count { S.faults source.old ≤ S.faults source.new }
    {
        for _ in 0..u64::MAX {
            if !self.refill(source)? {
                return Ok(None);
            }
            if let Some(record) = self.feed_left()? {
                return Ok(Some(record));
            }
        }
        // No capture has this many bytes.
        Err(Stop::Refused(CaptureFault::TooLong))
    }

    // Cuts the next record if it is a segment that the piece holds whole. Otherwise, and if memory is refused, nothing
    // changes.
    #[inline(always)]
    pub(crate) fn cut_held(&mut self) -> Option<Segment>
        ensures some { IfSome result (λ segment. TakesFirst (length self.old.left) self.old self.new
            (Ok (Some (Kinds.Segment segment)))) }
        ensures none { IfNone result (self.new ≡ self.old) }
    {
        match self.reader.take_held(&mut self.pieces) {
            Some(held) => {
                let Held { taken, segment } = held;
                self.pieces.pass(taken);
                Some(segment)
            }
            None => None,
        }
    }

    // Checks whether the piece holds the whole next record, so that no read is needed to cut it.
    pub(crate) fn holds_record(&self) -> bool
        ensures value { (records : List Record) (bytes : List ℕ) → StandsForRecords self.now.reader records bytes
            → HoldsRecord bytes self.now.left result }
    {
        !self.reader.is_within_record() && begins_with_record(self.pieces.left())
    }

    // Reads the next piece if nothing is left of this one. Returns whether there are bytes; if
    // there are none, the capture is whole.
    fn refill<S: Source>(&mut self, source: &mut S) -> Result<bool, Stop>
        ensures value { (first : S) (records : List Record) (bytes : List ℕ)
            → HasRead S.rest S.faults first source.old self.old records bytes
            → RefillsIntake S.rest S.faults first source.new self.new records bytes result }
        ensures some { result ≡ Ok true → 0 < length self.new.left }
        ensures count { S.faults source.old ≤ S.faults source.new }
    {
        if self.pieces.refill(source)? {
            return Ok(true);
        }
        match self.reader.end() {
            Ok(()) => Ok(false),
            Err(fault) => Err(Stop::Refused(fault)),
        }
    }

    // Feeds the reader the first byte of the rest of the piece.
    fn feed_one(&mut self) -> Result<Option<Record>, FeedFault>
        requires some { 0 < length self.old.left }
        ensures value { TakesFirst 1 self.old self.new result }
    {
        let left = self.pieces.left();
        let Fed { taken, answer } = self.reader.feed_piece(&left[..1]);
        self.pieces.pass(taken);
        answer
    }

    // Feeds the reader the rest of the piece, up to the end of the first record.
    #[inline(always)]
    fn feed_left(&mut self) -> Result<Option<Record>, FeedFault>
        requires some { 0 < length self.old.left }
        ensures value { TakesFirst (length self.old.left) self.old self.new result }
    {
        let Fed { taken, answer } = self.reader.feed_left(&mut self.pieces);
        self.pieces.pass(taken);
        answer
    }
}
