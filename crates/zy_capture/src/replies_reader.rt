//! The reader of replies files.
ghost use Rattle.std.specs.Prelude.{◌≡◌, ◌<◌, ◌≤◌, [], ◌∷◌, length, take, get_or, Err, Ok, None};
ghost use Rattle.zy_read.specs.Standing.{given_in, Feeds, FeedsAs, TellsFault, TellsLasting, AnswersBy};
ghost use Rattle.zy_read.specs.declared.not_taken.NotTaken.TheVariants.{NoMemory};
ghost use Rattle.zy_capture.specs.RepliesVerdict.{replies, verdict, version_of, is_good};
ghost use Rattle.zy_capture.specs.RepliesStanding.{StandsForReplies, EndsBy, IsOfOutput};

use crate::replies_state::RepliesState;
use crate::session_bytes::SessionBytes;
use std::alloc::Global;
use std::marker::Model;
use zy_base::FileFault;
use zy_read::{Fed, FieldReader, FileFeed, feed, feed_piece};

/// Reads a replies file, of either version, byte by byte or in pieces.
#[derive(Drop)]
pub struct RepliesReader {
    reader: FieldReader<RepliesState>,
}

impl Model for RepliesReader {
    ghost use Rattle.zy_capture.specs.RepliesSteps.{RepliesPlace};

    ghost Value = { RepliesPlace };

    ghost view = { λ r. r.reader };
}

impl RepliesReader {
    /// Makes a reader to which no byte was fed. Takes no memory.
    pub fn new(alloc: Global) -> RepliesReader
        ensures value { StandsForReplies result [] [] }
    {
        RepliesReader {
            reader: FieldReader::new(alloc, RepliesState::new()),
        }
    }

    /// Takes the next byte, and gives the output that it ends: at its last byte, or, if it is
    /// empty, at the last byte of its length.
    ///
    /// After a fault each call answers that same fault. `NoMemory` is possible only at the bytes of
    /// an output.
    pub fn feed(&mut self, byte: u8) -> Result<Option<SessionBytes>, FileFeed>
        ensures fed { FeedsAs replies self.old self.new (byte ∷ []) result }
        ensures exact { TellsFault replies self.old (byte ∷ []) result }
        ensures lasts { TellsLasting replies self.old (byte ∷ []) result }

        // If an allocation failed.
        ensures kept { result ≡ Err NoMemory → self.new ≡ self.old }
        ensures memory { result ≡ Err NoMemory → IsOfOutput self.old byte }
    {
        feed(&mut self.reader, byte)
    }

    /// Takes bytes up to and including the one that ends the first output or is the first fault, or
    /// all of them if there is none. The answer is the one that `feed` gives to that last byte.
    ///
    /// After `NoMemory` the bytes before the one that needs memory are taken; `feed` says when that
    /// is possible.
    #[tactic(auto, using(crate::proofs::RepliesFeeding::of_output))]
    pub fn feed_piece(&mut self, bytes: &[u8]) -> Fed<SessionBytes, FileFault>
        requires some { 0 < length bytes.now }
        ensures within { result.taken ≤ length bytes.now }
        ensures none { result.answer ≡ Ok None → result.taken ≡ length bytes.now }
        ensures taken { (gave : _) → result.answer ≡ Ok gave → 0 < result.taken }
        ensures fed { Feeds replies self.old self.new (take result.taken bytes.now)
            (given_in result.answer) }
        ensures exact { TellsFault replies self.old (take result.taken bytes.now) result.answer }
        ensures lasts { TellsLasting replies self.old (take result.taken bytes.now) result.answer }
        ensures memory { result.answer ≡ Err NoMemory
            → IsOfOutput self.new (get_or bytes.now result.taken 0) }
    {
        feed_piece(&mut self.reader, bytes)
    }

    /// Returns the version, 1 or 2; `None` if and only if the magic was not read whole or was
    /// wrong.
    #[tactic(auto, using(crate::proofs::RepliesFeeding::version_here))]
    pub fn version(&self) -> Option<u32>
        ensures value { AnswersBy replies self.now version_of result }
    {
        match self.reader.state().version {
            0 => None,
            version => Some(version),
        }
    }

    /// Checks whether the end was read and no fault was met.
    #[tactic(auto, using(zy_read::proofs::Feeding::verdict_here))]
    pub fn is_done(&self) -> bool
        ensures value { AnswersBy replies self.now (λ b. is_good (verdict b)) result }
    {
        self.reader.end().is_ok()
    }

    /// Checks whether the bytes that were fed are a whole replies file; answers their fault if not.
    #[tactic(auto, using(zy_read::proofs::Feeding::verdict_here))]
    pub fn end(&self) -> Result<(), FileFault>
        ensures value { EndsBy self.now result }
    {
        self.reader.end()
    }
}
