//! Reading the capture, whose records are added to streams.
ghost use Rattle.std.specs.Prelude.{◌≡◌, ◌<◌, ◌≤◌, ◌++◌, ◌∷◌, [], ℕ, List, length, take, true, None, Ok, ⊤};
ghost use Rattle.std.specs.Prelude.{OnOk, IfSome, IfNone};
ghost use Rattle.zy_capture.specs.Standing.{StandsForRecords};
ghost use Rattle.zy_capture.specs.Streams.{with_record};
ghost use Rattle.zy_capture.specs.Verdict.{Verdict, is_within_record};
ghost use Rattle.zy_input.specs.declared.stop.Refusal.TheVariants.{Capture};
ghost use Rattle.zy_input.specs.Reading.{TakesInPart, IsPartOpen};
ghost use Rattle.zy_input.specs.Kinds.{MayKeep, capture_keeping, capture_kind};
ghost use Rattle.zy_input.specs.Parts.{conn_of};
ghost use Rattle.zy_capture.specs.declared.record.Record.{Record};

use crate::keep::{Keep, keep_taken};
use crate::notes::{Noted, Notes};
use crate::part::{Part, Taken};
use crate::stop::{Refusal, Stop};
use std::alloc::Global;
use zy_base::NoMemory;
use zy_capture::{CaptureFault, Held, Reader, Record, Streams};
use zy_read::{Fed, Pieces, are_bytes};

/// The reader of the capture, and the streams of the records that it gave, with notes on them.
#[derive(Drop)]
pub(crate) struct CapturePart<N: Notes> {
    alloc: Global,
    reader: Reader,
    kept: Option<Noted<N>>,
}

impl<N: Notes> CapturePart<N> {
    // Begins before the first byte.
    pub(crate) fn new(alloc: Global) -> CapturePart<N>
        ensures reader { StandsForRecords result.reader [] [] }
        ensures none { result.kept ≡ None }
    {
        CapturePart {
            alloc,
            reader: Reader::new(alloc),
            kept: None,
        }
    }

    // Takes the segment that the piece holds whole, if it begins with one. Otherwise, and if memory is
    // refused, takes nothing.
    #[inline(always)]
    fn take_held(&mut self, pieces: &mut Pieces) -> Option<Taken>
        requires goes { IsPartOpen (λ (u : ⊤). capture_kind N.holds) self.old }
        ensures within { IfSome result (λ taken. taken.count ≤ length pieces.old) }
        ensures some { IfSome result (λ taken. 0 < taken.count) }
        ensures value { IfSome result (λ taken. (bytes : List ℕ)
            → (capture_kind N.holds).stands self.old bytes → (capture_kind N.holds).goes_on bytes
            → TakesInPart (capture_kind N.holds) self.new (bytes ++ take taken.count pieces.old)
            taken.answer) }
        ensures none { IfNone result (self.new ≡ self.old) }
        ensures kept { pieces.new ≡ pieces.old }
    {
        match self.reader.take_held(pieces) {
            Some(held) => {
                are_bytes(pieces.left());
                let Held { taken, segment } = held;
                let answer = Ok(Some(Record::Segment(segment)));
                let done = self.reader.is_done();
                let fed = Fed { taken, answer };
                Some(keep_taken(self.alloc, &self.reader, &mut self.kept, done, fed))
            }
            None => None,
        }
    }

    // Takes bytes up to the end of a record within one, and a single byte elsewhere, which may end
    // the capture.
    fn take_next(&mut self, next: &[u8]) -> Taken
        requires some { 0 < length next.now }
        requires goes { IsPartOpen (λ (u : ⊤). capture_kind N.holds) self.old }
        ensures within { result.count ≤ length next.now }
        ensures taken { (whole : _) → result.answer ≡ Ok whole → 0 < result.count }
        ensures value { (bytes : List ℕ) → (capture_kind N.holds).stands self.old bytes
            → (capture_kind N.holds).goes_on bytes
            → TakesInPart (capture_kind N.holds) self.new (bytes ++ take result.count next.now)
            result.answer }
    {
        if self.reader.is_within_record() {
            return self.take_piece(next);
        }
        self.take_byte(next[0])
    }

    // Takes one byte.
    fn take_byte(&mut self, byte: u8) -> Taken
        requires goes { IsPartOpen (λ (u : ⊤). capture_kind N.holds) self.old }
        ensures count { result.count ≡ 1 }
        ensures value { (bytes : List ℕ) → (capture_kind N.holds).stands self.old bytes
            → (capture_kind N.holds).goes_on bytes
            → TakesInPart (capture_kind N.holds) self.new (bytes ++ byte ∷ []) result.answer }
    {
        let answer = self.reader.feed(byte);
        let done = self.reader.is_done();
        let fed = Fed { taken: 1, answer };
        keep_taken(self.alloc, &self.reader, &mut self.kept, done, fed)
    }

    // Takes bytes of a record, up to its end at most.
    fn take_piece(&mut self, next: &[u8]) -> Taken
        requires some { 0 < length next.now }
        requires goes { IsPartOpen (λ (u : ⊤). capture_kind N.holds) self.old }
        ensures within { result.count ≤ length next.now }
        ensures taken { (whole : _) → result.answer ≡ Ok whole → 0 < result.count }
        ensures value { (bytes : List ℕ) → (capture_kind N.holds).stands self.old bytes
            → (capture_kind N.holds).goes_on bytes → is_within_record bytes ≡ true
            → TakesInPart (capture_kind N.holds) self.new (bytes ++ take result.count next.now)
            result.answer }
    {
        let fed = self.reader.feed_piece(next);
        let done = self.reader.is_done();
        keep_taken(self.alloc, &self.reader, &mut self.kept, done, fed)
    }
}

impl<N: Notes> Part for CapturePart<N> {
    type Gives = Noted<N>;

    ghost Setting = { ⊤ };

    ghost kind = { λ u. capture_kind N.holds };

    fn take(&mut self, pieces: &mut Pieces) -> Taken {
        match self.take_held(pieces) {
            Some(taken) => taken,
            None => self.take_next(pieces.left()),
        }
    }

    fn end(self) -> Result<Noted<N>, Stop> {
        match (self.reader.end(), self.kept) {
            (Ok(()), Some(kept)) => Ok(kept),
            // The count of a whole capture was read.
            (Ok(()), None) => unreachable!(),
            (Err(fault), _) => Err(Stop::Refused(Refusal::Capture(fault))),
        }
    }
}

impl<N: Notes> Keep for Noted<N> {
    type Reader = Reader;

    type Item = Record;

    type Fault = CaptureFault;

    ghost Verdict = { Verdict };

    ghost keeping = { capture_keeping N.holds };

    ghost refused = { λ fault. Capture fault };

    fn refusal(fault: CaptureFault) -> Refusal {
        Refusal::Capture(fault)
    }

    fn number(reader: &Reader) -> Option<u32> {
        reader.count()
    }

    fn make(alloc: Global, number: u32) -> Result<Noted<N>, NoMemory> {
        let streams = Streams::new(alloc, number)?;
        match N::begin(alloc, number) {
            Ok(notes) => Ok(Noted { streams, notes }),
            Err(refused) => {
                drop(streams);
                Err(refused)
            }
        }
    }

    fn add(made: &mut Option<Noted<N>>, item: Record) -> Result<(), NoMemory> {
        match made {
            Some(kept) => {
                let added = add_noted(kept, &item);
                drop(item);
                added
            }
            None => unreachable!(),
        }
    }
}

// Adds a record to streams, and takes notes on it.
fn add_noted<N: Notes>(kept: &mut Noted<N>, item: &Record) -> Result<(), NoMemory>
    requires may { MayKeep kept.old.streams item.now }
    requires notes { (count : ℕ) × (given : List Record) × N.holds kept.old.notes count given
        × (conn_of item.now < count) }
    ensures streams { OnOk result (kept.new.streams ≡ with_record kept.old.streams item.now) }
    ensures notes { OnOk result ((count : ℕ) (given : List Record) → N.holds kept.old.notes count given
        → conn_of item.now < count → N.holds kept.new.notes count (given ++ item.now ∷ [])) }
{
    add_record(&mut kept.streams, item)?;
    kept.notes.add(item)
}

// Adds a record to streams.
fn add_record(streams: &mut Streams, item: &Record) -> Result<(), NoMemory>
    requires may { MayKeep streams.old item.now }
    ensures ok { OnOk result (streams.new ≡ with_record streams.old item.now) }
{
    match item {
        Record::Segment(segment) => streams.add(segment),
        Record::Close { conn } => streams.close(*conn),
    }
}
