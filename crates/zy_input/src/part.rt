//! Reading one part of an input.
ghost use Rattle.std.specs.Prelude.{◌≡◌, ◌<◌, ◌≤◌, ℕ, List, [], ◌++◌, length, take, Ok, OnOk};
ghost use Rattle.zy_input.specs.Reading.{Kind, IsPartOpen, IsPartFed, IsLeft, IsReading, TakesInPart, EndsWhole};
ghost use Rattle.zy_input.specs.Reading.{EndsCut, AdvancesPart, FeedsPart, Reads, ReadsAlone};

use crate::stop::Stop;
use std::alloc::Global;
use zy_base::{NoMemory, Source};
use zy_read::Pieces;

/// How many bytes a part took, and whether it is whole with them.
#[derive(Clone, Copy)]
pub(crate) struct Taken {
    pub(crate) count: usize,
    pub(crate) answer: Result<bool, Stop>,
}

/// The reader of a part.
pub(crate) trait Part: Drop {
    /// What the part gives.
    type Gives;

    // The setting with which its bytes are read: for a journal, where it ends; for recorded
    // packets, their port.
    ghost Setting: { Type 0 };

    // What its bytes mean.
    ghost kind: { Setting → Kind Self Self.Gives };

    // Takes the first of the bytes that are left of a piece, but none after the end of the part,
    // and leaves them there.
    fn take(&mut self, pieces: &mut Pieces) -> Taken
        requires some { 0 < length pieces.old }
        requires goes { IsPartOpen kind self.old }
        ensures within { result.count ≤ length pieces.old }
        ensures taken { (whole : _) → result.answer ≡ Ok whole → 0 < result.count }
        ensures value { (setting : Setting) (bytes : List ℕ) → (kind setting).stands self.old bytes
            → (kind setting).goes_on bytes
            → TakesInPart (kind setting) self.new (bytes ++ take result.count pieces.old)
            result.answer }
        ensures kept { pieces.new ≡ pieces.old };

    // Returns what the taken bytes give, or their fault.
    fn end(self) -> Result<Self::Gives, Stop>
        requires fed { IsPartFed kind self }
        ensures whole { (setting : Setting) (bytes : List ℕ) → (kind setting).stands self bytes
            → (kind setting).whole bytes → EndsWhole (kind setting) bytes result }
        ensures cut { (setting : Setting) (bytes : List ℕ) → (kind setting).stands self bytes
            → (kind setting).goes_on bytes → EndsCut (kind setting) bytes result };
}

// Reads a part with which the source begins, to its end, or to that of the source.
pub(crate) fn read_alone<P: Part, S: Source>(
    alloc: Global,
    part: P,
    source: &mut S,
) -> Result<P::Gives, Stop>
    requires goes { IsPartOpen P.kind part }
    ensures value { (setting : P.Setting) → (P.kind setting).stands part []
        → (P.kind setting).goes_on []
        → ReadsAlone (P.kind setting) S.rest S.faults source.old source.new result }
    ensures count { S.faults source.old ≤ S.faults source.new }
{
    match Pieces::new(alloc) {
        Ok(mut pieces) => read_part(part, &mut pieces, source),
        Err(NoMemory) => {
            drop(part);
            Err(Stop::NoMemory)
        }
    }
}

// Reads a part to its end, or to that of the source.
pub(crate) fn read_part<P: Part, S: Source>(
    part: P,
    pieces: &mut Pieces,
    source: &mut S,
) -> Result<P::Gives, Stop>
    requires goes { IsPartOpen P.kind part }
    ensures value { (setting : P.Setting) (first : S) (before : List ℕ)
        → IsReading (P.kind setting) S.rest S.faults first source.old pieces.old before [] part
        → Reads (P.kind setting) S.rest S.faults first source.new pieces.new before result }
    ensures count { S.faults source.old ≤ S.faults source.new }
{
    let mut part = part;
    match feed_all(&mut part, pieces, source) {
        Ok(()) => part.end(),
        Err(stop) => Err(stop),
    }
}

// Feeds the reader up to the end of the part, or of the source.
fn feed_all<P: Part, S: Source>(
    part: &mut P,
    pieces: &mut Pieces,
    source: &mut S,
) -> Result<(), Stop>
    requires goes { IsPartOpen P.kind part.old }
    ensures value { (setting : P.Setting) (first : S) (before : List ℕ)
        → IsReading (P.kind setting) S.rest S.faults first source.old pieces.old before [] part.old
        → FeedsPart (P.kind setting) S.rest S.faults first source.new pieces.new before part.new result }
    ensures fed { OnOk result (IsPartFed P.kind part.new) }
    ensures count { S.faults source.old ≤ S.faults source.new }
{
    for _ in 0..u64::MAX {
        if advance(part, pieces, source)? {
            return Ok(());
        }
    }
    // No part has this many bytes.
    Err(Stop::NoMemory)
}

// Feeds the reader some bytes. Returns whether there is nothing more to feed.
fn advance<P: Part, S: Source>(
    part: &mut P,
    pieces: &mut Pieces,
    source: &mut S,
) -> Result<bool, Stop>
    requires goes { IsPartOpen P.kind part.old }
    ensures left { IsLeft P.kind part.new result }
    ensures value { (setting : P.Setting) (first : S) (before bytes : List ℕ)
        → IsReading (P.kind setting) S.rest S.faults first source.old pieces.old before bytes part.old
        → AdvancesPart (P.kind setting) S.rest S.faults first source.new pieces.new before bytes part.new
        result }
    ensures count { S.faults source.old ≤ S.faults source.new }
{
    if !pieces.refill(source)? {
        return Ok(true);
    }
    let Taken { count, answer } = part.take(pieces);
    pieces.pass(count);
    answer
}
