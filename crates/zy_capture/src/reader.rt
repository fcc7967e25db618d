//! The reader of captures.
ghost use Rattle.std.specs.Prelude.{◌≡◌, ◌+◌, ◌<◌, ◌≤◌, [], ◌∷◌, ◌++◌, length, take, drop, get_or, Err, Ok, Some};
ghost use Rattle.std.specs.Prelude.{None, IfSome, IfNone};
ghost use Rattle.zy_read.specs.Standing.{given_in, Feeds, FeedsAs, TellsFault, TellsLasting, AnswersBy, Follows};
ghost use Rattle.zy_read.specs.declared.not_taken.NotTaken.TheVariants.{NoMemory};
ghost use Rattle.zy_capture.specs.declared.record.Record.TheVariants as Kinds;
ghost use Rattle.zy_capture.specs.Verdict.{captures, verdict, version_of, count_of, is_within_record, is_good};
ghost use Rattle.zy_capture.specs.Standing.{StandsForRecords, EndsBy, IsLengthEnd};

mod head;
mod steps;
mod whole;

use crate::capture_fault::{CaptureFault, FeedFault};
use crate::capture_state::CaptureState;
use crate::due::Due;
use crate::reader::whole::{copy_of, part_of};
use crate::record::{Held, Record};
use std::alloc::Global;
use std::marker::Model;
use zy_base::Filling;
use zy_read::{Fed, Field, MagicPart, Pieces, feed, feed_piece};

/// Reads a capture, byte by byte or in pieces.
#[derive(Drop)]
pub struct Reader {
    alloc: Global,
    state: CaptureState,
    field: Field,
    payload: Filling,
    at: u64,
    fault: Option<CaptureFault>,
}

impl Model for Reader {
    ghost use Rattle.std.specs.Prelude.{◌+◌, ◌≤◌, length};
    ghost use Rattle.zy_capture.specs.Steps.{CaptureProgress};
    ghost use Rattle.zy_capture.specs.Standing.{seen_of, IsWithinBy};

    ghost Value = { CaptureProgress };

    ghost view = { λ r. record {
      state = r.state;
      seen = seen_of r.state.due r.field r.payload.bytes;
      at = r.at;
      fault = r.fault;
    } };

    ghost invariant = { λ r. (length r.field ≤ r.at)
        × IsWithinBy r.fault r.state.due r.at r.field r.payload.bytes (length r.payload.bytes + r.payload.room) };
}

impl Reader {
    /// Makes a reader to which no byte was fed. Takes no memory.
    pub fn new(alloc: Global) -> Reader
        ensures value { StandsForRecords result [] [] }
    {
        Reader {
            alloc,
            state: CaptureState {
                due: Due::Magic(MagicPart::Letters),
                version: 0,
                count: 0,
            },
            field: Field::new(),
            payload: Filling::new(alloc),
            at: 0,
            fault: None,
        }
    }

    /// Takes the next byte, and gives the record that it ends. A close record ends at its last
    /// byte; a segment ends at its last byte, or, if it is empty, at the last byte of its length.
    ///
    /// After a fault each call answers that same fault. `NoMemory` is possible only at the last
    /// byte of a length.
    pub fn feed(&mut self, byte: u8) -> Result<Option<Record>, FeedFault>
        ensures fed { FeedsAs captures self.old self.new (byte ∷ []) result }
        ensures exact { TellsFault captures self.old (byte ∷ []) result }
        ensures lasts { TellsLasting captures self.old (byte ∷ []) result }

        // If an allocation failed.
        ensures kept { result ≡ Err NoMemory → self.new ≡ self.old }
        ensures memory { result ≡ Err NoMemory → IsLengthEnd self.old byte }
    {
        feed(self, byte)
    }

    /// Takes bytes up to and including the one that ends the first record or is the first fault, or
    /// all of them if there is none. The answer is the one that `feed` gives to that last byte.
    ///
    /// After `NoMemory` the bytes before the one that needs memory are taken; `feed` says when that
    /// is possible.
    #[inline(always)]
    pub fn feed_piece(&mut self, bytes: &[u8]) -> Fed<Record, CaptureFault>
        requires some { 0 < length bytes.now }
        ensures within { result.taken ≤ length bytes.now }
        ensures none { result.answer ≡ Ok None → result.taken ≡ length bytes.now }
        ensures taken { (gave : _) → result.answer ≡ Ok gave → 0 < result.taken }
        ensures fed { Feeds captures self.old self.new (take result.taken bytes.now)
            (given_in result.answer) }
        ensures exact { TellsFault captures self.old (take result.taken bytes.now) result.answer }
        ensures lasts { TellsLasting captures self.old (take result.taken bytes.now) result.answer }
        ensures memory { result.answer ≡ Err NoMemory
            → IsLengthEnd self.new (get_or bytes.now result.taken 0) }
    {
        match self.lawful_segment(bytes) {
            Some(head) => {
                let copy = copy_of(self.alloc, bytes, head.size);
                self.take_segment(bytes, head, copy)
            }
            None => feed_piece(self, bytes),
        }
    }

    /// Takes some of the bytes that are left of a piece, as `feed_piece` does, and leaves them in
    /// it. A segment that the piece holds whole shares its bytes with the piece, if it has more
    /// than 16.
    #[inline(always)]
    pub fn feed_left(&mut self, pieces: &mut Pieces) -> Fed<Record, CaptureFault>
        requires some { 0 < length pieces.old }
        ensures within { result.taken ≤ length pieces.old }
        ensures none { result.answer ≡ Ok None → result.taken ≡ length pieces.old }
        ensures taken { (gave : _) → result.answer ≡ Ok gave → 0 < result.taken }
        ensures fed { Feeds captures self.old self.new (take result.taken pieces.old)
            (given_in result.answer) }
        ensures exact { TellsFault captures self.old (take result.taken pieces.old) result.answer }
        ensures lasts { TellsLasting captures self.old (take result.taken pieces.old) result.answer }
        ensures memory { result.answer ≡ Err NoMemory
            → IsLengthEnd self.new (get_or pieces.old result.taken 0) }
        ensures kept { pieces.new ≡ pieces.old }
    {
        match self.lawful_segment(pieces.left()) {
            Some(head) => {
                let part = part_of(self.alloc, pieces, head.size);
                self.take_segment(pieces.left(), head, part)
            }
            None => feed_piece(self, pieces.left()),
        }
    }

    /// Takes the segment with which the bytes that are left of a piece begin, if the piece holds it whole,
    /// and leaves them there. Otherwise, and if memory is refused, nothing is taken.
    #[inline(always)]
    pub fn take_held(&mut self, pieces: &mut Pieces) -> Option<Held>
        ensures within { IfSome result (λ held. held.taken ≤ length pieces.old) }
        ensures some { IfSome result (λ held. 0 < held.taken) }
        ensures fed { IfSome result (λ held. Feeds captures self.old self.new (take held.taken pieces.old)
            (Kinds.Segment held.segment ∷ [])) }
        ensures exact { IfSome result (λ held. TellsFault captures self.old (take held.taken pieces.old)
            (Ok (Some (Kinds.Segment held.segment)))) }
        ensures none { IfNone result (self.new ≡ self.old) }
        ensures kept { pieces.new ≡ pieces.old }
    {
        let head = self.lawful_segment(pieces.left())?;
        match part_of(self.alloc, pieces, head.size) {
            Ok(bytes) => Some(self.pass_segment(pieces.left(), head, bytes)),
            Err(_) => None,
        }
    }

    /// Returns the version, 1 or 2; `None` if and only if the magic was not read whole or was
    /// wrong.
    #[tactic(auto, using(crate::proofs::Feeding::version_here))]
    pub fn version(&self) -> Option<u32>
        ensures value { AnswersBy captures self.now version_of result }
    {
        match self.state.version {
            0 => None,
            version => Some(version),
        }
    }

    /// Returns the connection count; `None` if and only if it was not read whole or was too large.
    #[tactic(auto, using(crate::proofs::Feeding::count_here))]
    pub fn count(&self) -> Option<u32>
        ensures value { AnswersBy captures self.now count_of result }
    {
        match self.state.due {
            Due::Magic(_) | Due::Count => None,
            _ => Some(self.state.count),
        }
    }

    /// Checks whether a record was begun that has not ended.
    #[tactic(auto, using(crate::proofs::Feeding::within_here))]
    pub fn is_within_record(&self) -> bool
        ensures value { AnswersBy captures self.now is_within_record result }
    {
        self.fault.is_none()
            && matches!(
                self.state.due,
                Due::Connection | Due::Length { .. } | Due::Payload { .. } | Due::Closed
            )
    }

    /// Checks whether the end was read and no fault was met.
    #[tactic(auto, using(zy_read::proofs::Feeding::verdict_here))]
    pub fn is_done(&self) -> bool
        ensures value { AnswersBy captures self.now (λ b. is_good (verdict b)) result }
    {
        self.fault.is_none() && matches!(self.state.due, Due::Nothing)
    }

    /// Checks whether the bytes that were fed are a whole capture; answers their fault if not.
    #[tactic(auto, using(zy_read::proofs::Feeding::verdict_here))]
    pub fn end(&self) -> Result<(), CaptureFault>
        ensures value { EndsBy self.now result }
    {
        match (self.fault, self.state.due) {
            (Some(fault), _) => Err(fault),
            (None, Due::Nothing) => Ok(()),
            (None, _) => Err(CaptureFault::Truncated { at: self.at }),
        }
    }
}
