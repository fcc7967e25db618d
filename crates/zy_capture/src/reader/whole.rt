//! A segment that bytes hold whole, taken at once.
ghost use Rattle.std.specs.Prelude.{◌≡◌, ◌≢◌, ◌+◌, ◌<◌, ◌≤◌, length, take, drop, get_or, IfSome, IfOk, OnErr};
ghost use Rattle.std.specs.Prelude.{Ok, Err, Some, None, [], ◌∷◌};
ghost use Rattle.zy_read.specs.Standing.{given_in, Feeds, TellsFault, TellsLasting};
ghost use Rattle.zy_read.specs.declared.not_taken.NotTaken.TheVariants as Answers;
ghost use Rattle.zy_capture.specs.declared.record.Record.TheVariants as Kinds;
ghost use Rattle.zy_capture.specs.Standing.{IsLengthEnd};
ghost use Rattle.zy_capture.specs.Verdict.{captures};
ghost use Rattle.zy_capture.specs.Whole.{TakesSegment};

use super::Reader;
use super::steps::{CAPTURE_LIMIT, HEAD, SEGMENT_LIMIT};
use crate::capture_fault::{CaptureFault, FeedFault};
use crate::due::Due;
use crate::record::{Held, Record, Segment};
use crate::whole::{Head, held_segment};
use std::alloc::Global;
use zy_base::{Blob, NoMemory};
use zy_read::{Fed, Pieces};

// The bytes of a segment before its own.
const FRONT: usize = HEAD + 1;

// The last place after which every segment fits.
const LAST: u64 = CAPTURE_LIMIT - 65_544;

impl Reader {
    // Returns the head of the segment with which bytes begin, if they hold it whole and it is
    // lawful here.
    pub(super) fn lawful_segment(&self, bytes: &[u8]) -> Option<Head>
        ensures some { IfSome result (λ head. TakesSegment self.now bytes.now head.conn head.size) }
    {
        if self.fault.is_some() || !matches!(self.state.due, Due::Tag) || self.at > LAST {
            return None;
        }
        let Some(head) = held_segment(bytes) else {
            return None;
        };
        if head.conn >= self.state.count || head.size > SEGMENT_LIMIT {
            return None;
        }
        Some(head)
    }

    // Takes the segment that has this head and these bytes. If an allocation fails, takes the bytes
    // before the last one of its length.
    #[inline(always)]
    pub(super) fn take_segment(
        &mut self,
        bytes: &[u8],
        head: Head,
        payload: Result<Blob, NoMemory>,
    ) -> Fed<Record, CaptureFault>
        requires takes { TakesSegment self.old bytes.now head.conn head.size }
        requires payload { IfOk payload (λ payload. payload ≡ take head.size (drop 9 bytes.now)) }
        requires some { OnErr payload (0 < head.size) }
        ensures within { result.taken ≤ length bytes.now }
        ensures some { 0 < result.taken }
        ensures gives { result.answer ≢ Ok None }
        ensures fed { Feeds captures self.old self.new (take result.taken bytes.now) (given_in result.answer) }
        ensures exact { TellsFault captures self.old (take result.taken bytes.now) result.answer }
        ensures lasts { TellsLasting captures self.old (take result.taken bytes.now) result.answer }
        ensures memory { result.answer ≡ Err Answers.NoMemory
            → IsLengthEnd self.new (get_or bytes.now result.taken 0) }
    {
        let Head { conn, size } = head;
        let end = FRONT + size as usize;
        let at = self.at + end as u64;
        match payload {
            Ok(payload) => {
                self.at = at;
                Fed {
                    taken: end,
                    answer: Ok(Some(Record::Segment(Segment {
                        conn,
                        bytes: payload,
                    }))),
                }
            }
            Err(_) => {
                self.go_to_length(conn, bytes[5], bytes[6], bytes[7]);
                Fed {
                    taken: HEAD,
                    answer: Err(FeedFault::NoMemory),
                }
            }
        }
    }

    // Takes the segment that has this head and these bytes, for which there was memory.
    #[inline(always)]
    pub(super) fn pass_segment(&mut self, bytes: &[u8], head: Head, payload: Blob) -> Held
        requires takes { TakesSegment self.old bytes.now head.conn head.size }
        requires payload { payload ≡ take head.size (drop 9 bytes.now) }
        ensures within { result.taken ≤ length bytes.now }
        ensures some { 0 < result.taken }
        ensures fed { Feeds captures self.old self.new (take result.taken bytes.now)
            (Kinds.Segment result.segment ∷ []) }
        ensures exact { TellsFault captures self.old (take result.taken bytes.now)
            (Ok (Some (Kinds.Segment result.segment))) }
    {
        let Head { conn, size } = head;
        let taken = FRONT + size as usize;
        self.at += taken as u64;
        Held {
            taken,
            segment: Segment {
                conn,
                bytes: payload,
            },
        }
    }
}

// Copies the segment of this size with which bytes begin. This cannot fail if it is empty.
pub(super) fn copy_of(alloc: Global, bytes: &[u8], size: u32) -> Result<Blob, NoMemory>
    requires within { 9 + size ≤ length bytes.now }
    ensures value { IfOk result (λ payload. payload ≡ take size (drop 9 bytes.now)) }
    ensures some { OnErr result (0 < size) }
{
    match Blob::copy_of(alloc, &bytes[FRONT..FRONT + size as usize]) {
        Ok(copy) => Ok(copy),
        Err(_) if size == 0 => Ok(Blob::new(alloc)),
        Err(_) => Err(NoMemory),
    }
}

// Makes that segment with bytes that are shared with the piece, which is left as it is.
#[inline(always)]
pub(super) fn part_of(alloc: Global, pieces: &mut Pieces, size: u32) -> Result<Blob, NoMemory>
    requires within { 9 + size ≤ length pieces.old }
    ensures value { IfOk result (λ payload. payload ≡ take size (drop 9 pieces.old)) }
    ensures some { OnErr result (0 < size) }
    ensures kept { pieces.new ≡ pieces.old }
{
    match pieces.part(FRONT, FRONT + size as usize) {
        Ok(part) => Ok(part),
        Err(_) if size == 0 => Ok(Blob::new(alloc)),
        Err(_) => Err(NoMemory),
    }
}
