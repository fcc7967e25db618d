//! The reader of journals.
ghost use Rattle.std.specs.Prelude.{◌≡◌, ◌+◌, ◌<◌, ◌≤◌, [], ◌∷◌, length, take, drop, get_or, Err, Ok, None, Some};
ghost use Rattle.std.specs.Prelude.{true, false};
ghost use Rattle.zy_read.specs.Standing.{given_in, Feeds, FeedsAs, TellsFault, TellsLasting, AnswersBy};
ghost use Rattle.zy_read.specs.declared.not_taken.NotTaken.TheVariants.{NoMemory};
ghost use Rattle.zy_journal_reader.specs.Verdict.{journals, journal_verdict, is_good_journal};
ghost use Rattle.zy_journal_reader.specs.Standing.{StandsForJournal, EndsJournalBy, MayWant};

use crate::state::JournalState;
use std::alloc::Global;
use std::marker::Model;
use zy_base::FileFault;
use zy_journal::Journal;
use zy_read::{Fed, FieldReader, FileFeed, feed, feed_piece};

/// Reads a journal, byte by byte or in pieces, and keeps it.
#[derive(Drop)]
pub struct JournalReader {
    reader: FieldReader<JournalState>,
}

impl Model for JournalReader {
    ghost use Rattle.zy_journal_reader.specs.Steps.{JournalProgress};

    ghost Value = { JournalProgress };

    ghost view = { λ r. r.reader };
}

impl JournalReader {
    /// Makes a reader to which no byte was fed. Takes no memory.
    pub fn new(alloc: Global) -> JournalReader
        ensures value { StandsForJournal result [] [] }
    {
        JournalReader {
            reader: FieldReader::new(alloc, JournalState::new(alloc)),
        }
    }

    /// Takes the next byte. The answer is `Some` at the byte that ends the journal.
    ///
    /// After a fault each call answers that same fault, and a byte after the end is a fault.
    /// `NoMemory` is possible at the bytes of keys and values and where an entry or a hold may end.
    pub fn feed(&mut self, byte: u8) -> Result<Option<()>, FileFeed>
        ensures fed { FeedsAs journals self.old self.new (byte ∷ []) result }
        ensures exact { TellsFault journals self.old (byte ∷ []) result }
        ensures lasts { TellsLasting journals self.old (byte ∷ []) result }

        // If an allocation failed.
        ensures kept { result ≡ Err NoMemory → self.new ≡ self.old }
        ensures memory { result ≡ Err NoMemory → MayWant self.old byte }
    {
        feed(&mut self.reader, byte)
    }

    /// Takes bytes up to the end of the journal or the first fault, or all of them if there is
    /// neither. The answer is the one that `feed` gives to the last byte taken; bytes after the end
    /// are not read.
    ///
    /// After `NoMemory` the bytes before the one that needs memory are taken; `feed` says when that
    /// is possible.
    pub fn feed_piece(&mut self, bytes: &[u8]) -> Fed<(), FileFault>
        requires some { 0 < length bytes.now }
        ensures within { result.taken ≤ length bytes.now }
        ensures none { result.answer ≡ Ok None → result.taken ≡ length bytes.now }
        ensures taken { (gave : _) → result.answer ≡ Ok gave → 0 < result.taken }
        ensures fed { Feeds journals self.old self.new (take result.taken bytes.now)
            (given_in result.answer) }
        ensures exact { TellsFault journals self.old (take result.taken bytes.now) result.answer }
        ensures lasts { TellsLasting journals self.old (take result.taken bytes.now) result.answer }
        ensures memory { result.answer ≡ Err NoMemory
            → MayWant self.new (get_or bytes.now result.taken 0) }
    {
        feed_piece(&mut self.reader, bytes)
    }

    /// Checks whether the end was read and no fault was met.
    #[tactic(auto, using(zy_read::proofs::Feeding::verdict_here))]
    pub fn is_done(&self) -> bool
        ensures value { AnswersBy journals self.now (λ b. is_good_journal (journal_verdict b))
            result }
    {
        self.reader.end().is_ok()
    }

    /// Returns the journal whose bytes were fed, or their fault.
    #[tactic(auto, using(zy_read::proofs::Feeding::verdict_here))]
    pub fn end(self) -> Result<Journal, FileFault>
        ensures value { EndsJournalBy self result }
    {
        match self.reader.end() {
            Ok(()) => Ok(self.reader.into_state().into_journal()),
            Err(fault) => Err(fault),
        }
    }
}
