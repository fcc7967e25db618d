//! Numbers of eight bytes.
ghost use Rattle.std.specs.Prelude.{◌≡◌, ℕ};
ghost use Rattle.zy_journal_reader.specs.declared.due.Due.TheVariants as Dues;
ghost use Rattle.zy_journal_reader.specs.declared.due.LongField.TheVariants as Longs;
ghost use Rattle.zy_journal_reader.specs.Steps.{lawful_long, after_eight};
ghost use Rattle.zy_journal_reader.specs.Standing.{TakesStep};

use super::JournalState;
use crate::call_fields::at_value;
use crate::due::{Due, LongField, NumberField};
use mc_calls::{CallReply, Tallied};
use std::alloc::Global;
use zy_base::{COMMAND_LIMIT, STAMP_LIMIT};
use zy_read::FileFeed;

impl JournalState {
    // Checks whether the number is allowed there.
    pub(super) fn is_lawful_long(&self, field: LongField, number: u64) -> bool
        ensures value { result ≡ lawful_long field self.now number }
    {
        match field {
            LongField::Stamp => 1 <= number && number < STAMP_LIMIT && self.past.stamp <= number,
            LongField::Index => number < COMMAND_LIMIT,
            LongField::CallNumber => true,
            LongField::FoundUnique => true,
            LongField::ReplyNumber => true,
            LongField::Gets
            | LongField::Sets
            | LongField::Hits
            | LongField::Misses
            | LongField::Items => true,
        }
    }

    // Takes a valid number.
    pub(super) fn take_long(
        &mut self,
        alloc: Global,
        field: LongField,
        number: u64,
    ) -> Result<Option<()>, FileFeed>
        requires due { self.old.due ≡ Dues.Long field }
        ensures value { TakesStep (after_eight field self.old number) self.old self.new result }
    {
        match field {
            LongField::Stamp => {
                self.draft.stamp = number;
                self.due = Due::Number(NumberField::Shard);
            }
            LongField::Index => {
                self.draft.index = number;
                self.due = Due::Number(NumberField::Part);
            }
            LongField::CallNumber => {
                self.draft.number = number;
                self.due = at_value(self.draft.kind.fields());
            }
            LongField::FoundUnique => {
                self.draft.found_unique = number;
                self.due = Due::Number(NumberField::FoundLength);
            }
            LongField::ReplyNumber => return self.end_entry(alloc, CallReply::Number { number }),
            LongField::Gets => {
                self.draft.counts.gets = number;
                self.due = Due::Long(LongField::Sets);
            }
            LongField::Sets => {
                self.draft.counts.sets = number;
                self.due = Due::Long(LongField::Hits);
            }
            LongField::Hits => {
                self.draft.counts.hits = number;
                self.due = Due::Long(LongField::Misses);
            }
            LongField::Misses => {
                self.draft.counts.misses = number;
                self.due = Due::Long(LongField::Items);
            }
            LongField::Items => return self.end_tally(alloc, number),
        }
        Ok(None)
    }

    // Takes the number of items, which ends a tally and its entry.
    fn end_tally(&mut self, alloc: Global, number: u64) -> Result<Option<()>, FileFeed>
        requires due { self.old.due ≡ Dues.Long Longs.Items }
        ensures value { TakesStep (after_eight Longs.Items self.old number)
            self.old self.new result }
    {
        let counts = Tallied {
            items: number,
            ..self.draft.counts
        };
        self.end_entry(alloc, CallReply::tally(counts))
    }
}
