//! What was read of a journal, and what its fields do.
ghost use Rattle.std.specs.Prelude.{◌≡◌, ◌-◌, ◌+◌, ◌∷◌, [], ℕ, length};
ghost use Rattle.zy_journal_reader.specs.Steps.{journal_fields, journal_shape, journal_start};
ghost use Rattle.zy_journal_reader.specs.Verdict.{JournalVerdict, good_journal, journal_in};
ghost use Rattle.zy_journal_reader.specs.Verdict.JournalVerdict.{Bad};
ghost use Rattle.zy_journal_reader.specs.Standing.{FitsPlace, Wants};
ghost use Rattle.zy_journal_reader.specs.Laws.{journal_widths, runs, journal_lawful, journal_few};
ghost use Rattle.zy_journal_reader.specs.Laws.{journal_begins};

mod codes;
mod contents;
mod ends;
mod long_numbers;
mod numbers;
mod whole_records;

use crate::draft::Draft;
use crate::due::{ByteField, Due};
use crate::past::Past;
use mc_calls::{Entries, Entry, Hold, Holds};
use std::alloc::Global;
use std::marker::Model;
use zy_base::{Blob, FileFault};
use zy_journal::Journal;
use zy_read::{FieldFormat, FileFeed, NotTaken, Shape};

const JOURNAL_LIMIT: u64 = 9_223_372_036_854_775_807;

/// What was read of a journal up to some field.
#[derive(Drop)]
pub(crate) struct JournalState {
    due: Due,
    draft: Draft,
    entries: Vec<Entry>,
    holds: Vec<Hold>,
    past: Past,
}

impl Model for JournalState {
    ghost use Rattle.zy_journal_reader.specs.Steps.{ReadState};

    ghost Value = { ReadState };

    ghost view = { λ s. record {
      due = s.due;
      draft = s.draft;
      entries = s.entries.items;
      holds = s.holds.items;
      past = s.past;
    } };
}

impl JournalState {
    // Makes the state before the first byte.
    pub(crate) fn new(alloc: Global) -> JournalState
        ensures value { result ≡ journal_start }
    {
        JournalState {
            due: Due::Byte(ByteField::Magic),
            draft: Draft::new(alloc),
            entries: Vec::new(alloc),
            holds: Vec::new(alloc),
            past: Past {
                stamp: 0,
                shard: 0,
                conn: 0,
            },
        }
    }

    // Returns the journal that was read.
    pub(crate) fn into_journal(self) -> Journal
        ensures value { result ≡ journal_in self }
    {
        Journal::new(Entries::from_vec(self.entries), Holds::from_vec(self.holds))
    }
}

impl FieldFormat for JournalState {
    type Gives = ();

    type Fault = FileFault;

    ghost Verdict = { JournalVerdict };

    ghost fields = { journal_fields };

    ghost good = { good_journal };

    ghost bad = { Bad };

    ghost shape_of = { λ s. journal_shape s.due s.draft.size };

    ghost Fits = { FitsPlace };

    ghost Wants = { Wants };

    fn shape(&self) -> Shape {
        match self.due {
            Due::Byte(_) | Due::Nothing => Shape::Byte,
            Due::Number(_) => Shape::Four,
            Due::Long(_) => Shape::Eight,
            Due::Bytes(_) => Shape::Run(u64::from(self.draft.size.saturating_sub(1))),
        }
    }

    fn is_end(&self) -> bool {
        matches!(self.due, Due::Nothing)
    }

    // Checks whether the next field gives no record: only a tag may be the end.
    #[tactic(auto, using(crate::proofs::OpenLemmas::quiet))]
    fn is_quiet(&self) -> bool {
        !matches!(self.due, Due::Byte(ByteField::Tag))
    }

    fn limit(&self) -> u64 {
        JOURNAL_LIMIT
    }

    fn too_long(&self) -> FileFault {
        FileFault::TooLong
    }

    fn truncated(&self, at: u64) -> FileFault {
        FileFault::Truncated { at }
    }

    fn judge_byte(&mut self, alloc: Global, at: u64, byte: u8) -> Result<Option<()>, FileFeed> {
        match self.due {
            Due::Byte(field) if self.is_lawful_byte(field, at, byte) => {
                self.take_byte(alloc, field, at, byte)
            }
            _ => Err(NotTaken::Fault(FileFault::Form { at })),
        }
    }

    #[tactic(auto, using(crate::proofs::PlacedLemmas::placed))]
    fn judge_four(
        &mut self,
        alloc: Global,
        at: u64,
        bytes: [u8; 4],
    ) -> Result<Option<()>, FileFeed> {
        let number = u32::from_be_bytes(bytes);
        match self.due {
            Due::Number(field) if self.is_lawful_number(field, number) => {
                self.take_number(alloc, field, number)
            }
            _ => Err(NotTaken::Fault(FileFault::Form { at })),
        }
    }

    #[tactic(auto, using(crate::proofs::PlacedLemmas::placed))]
    fn judge_eight(
        &mut self,
        alloc: Global,
        at: u64,
        bytes: [u8; 8],
    ) -> Result<Option<()>, FileFeed> {
        let number = u64::from_be_bytes(bytes);
        match self.due {
            Due::Long(field) if self.is_lawful_long(field, number) => {
                self.take_long(alloc, field, number)
            }
            _ => Err(NotTaken::Fault(FileFault::Form { at })),
        }
    }

    // Judges a key or a value. Copies it, so that it takes no more memory than it needs, and none
    // if it is short.
    #[tactic(auto, using(crate::proofs::PlacedLemmas::placed, crate::proofs::PlacedLemmas::run_due))]
    fn judge_run(
        &mut self,
        alloc: Global,
        at: u64,
        bytes: &mut Vec<u8>,
    ) -> Result<Option<()>, FileFeed> {
        match self.due {
            Due::Bytes(field) => match Blob::copy_of(alloc, bytes.as_slice()) {
                Ok(all) => self.take_contents(alloc, field, all),
                Err(_) => Err(NotTaken::NoMemory),
            },
            _ => unreachable!(),
        }
    }

    // Takes whole records, where one may begin.
    #[tactic(auto, using(zy_read::proofs::OverLemmas::over_none))]
    fn judge_front(&mut self, alloc: Global, at: u64, bytes: &[u8]) -> usize {
        match self.due {
            Due::Byte(ByteField::Tag) => self.take_records(alloc, bytes),
            _ => 0,
        }
    }

    ghost widths = { journal_widths };

    ghost runs = { runs };

    ghost lawful = { journal_lawful };

    ghost few = { journal_few };

    ghost begins = { journal_begins };
}
