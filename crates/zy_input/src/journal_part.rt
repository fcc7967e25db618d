//! Reading a journal.
ghost use Rattle.std.specs.Prelude.{◌≡◌, ℕ, List, []};
ghost use Rattle.zy_journal_reader.specs.Standing.{StandsForJournal};
ghost use Rattle.zy_journal_reader.specs.Verdict.{journal_verdict};
ghost use Rattle.zy_input.specs.Kinds.{journal_kind, is_whole, StandsForJournalPart};
ghost use Rattle.zy_input.specs.declared.journal_part.Until.{Until};

use crate::part::{Part, Taken};
use crate::stop::{Refusal, Stop};
use std::alloc::Global;
use zy_journal::Journal;
use zy_journal_reader::JournalReader;
use zy_read::{Fed, FileFeed, Pieces};

/// Where a journal ends.
#[derive(Clone, Copy)]
pub(crate) enum Until {
    /// At its own end; what follows is another part.
    OwnEnd,
    /// With the source; a byte after its own end is a fault.
    SourceEnd,
}

/// The reader of a journal.
#[derive(Drop)]
pub(crate) struct JournalPart {
    reader: JournalReader,
    until: Until,
}

impl JournalPart {
    // Begins before the first byte.
    pub(crate) fn new(alloc: Global, until: Until) -> JournalPart
        ensures value { StandsForJournal result.reader [] [] }
        ensures until { result.until ≡ until }
    {
        JournalPart {
            reader: JournalReader::new(alloc),
            until,
        }
    }

    // Checks whether the journal is whole, whatever follows.
    fn is_whole(&self) -> bool
        ensures value { (until : Until) (bytes : List ℕ) → StandsForJournalPart until self.now bytes
            → result ≡ is_whole until (journal_verdict bytes) }
    {
        match self.until {
            Until::OwnEnd => self.reader.is_done(),
            Until::SourceEnd => false,
        }
    }
}

impl Part for JournalPart {
    type Gives = Journal;

    ghost Setting = { Until };

    ghost kind = { journal_kind };

    fn take(&mut self, pieces: &mut Pieces) -> Taken {
        let Fed { taken, answer } = self.reader.feed_piece(pieces.left());
        let answer = match answer {
            Ok(_) => Ok(self.is_whole()),
            Err(FileFeed::Fault(fault)) => Err(Stop::Refused(Refusal::Journal(fault))),
            Err(FileFeed::NoMemory) => Err(Stop::NoMemory),
        };
        Taken {
            count: taken,
            answer,
        }
    }

    fn end(self) -> Result<Journal, Stop> {
        match self.reader.end() {
            Ok(journal) => Ok(journal),
            Err(fault) => Err(Stop::Refused(Refusal::Journal(fault))),
        }
    }
}
