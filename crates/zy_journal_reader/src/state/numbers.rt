//! Numbers of four bytes.
ghost use Rattle.std.specs.Prelude.{◌≡◌, ℕ};
ghost use Rattle.zy_read.specs.Fields.Judged.{Then};
ghost use Rattle.zy_journal_reader.specs.declared.due.Due.TheVariants as Dues;
ghost use Rattle.zy_journal_reader.specs.declared.due.NumberField.TheVariants as Numbers;
ghost use Rattle.zy_journal_reader.specs.Steps.{lawful_number, after_four};
ghost use Rattle.zy_journal_reader.specs.Standing.{TakesStep};

use super::JournalState;
use crate::call_fields::at_number;
use crate::due::{ByteField, BytesField, Due, LongField, NumberField};
use std::alloc::Global;
use zy_base::{Blob, CONNECTION_LIMIT, CORE_LIMIT, HOLD_LIMIT, SHARD_LIMIT, VALUE_LIMIT};
use zy_read::FileFeed;

impl JournalState {
    // Checks whether the number is allowed there.
    pub(super) fn is_lawful_number(&self, field: NumberField, number: u32) -> bool
        ensures value { result ≡ lawful_number field self.now number }
    {
        match field {
            NumberField::Shard => {
                number < SHARD_LIMIT
                    && (self.past.stamp < self.draft.stamp || self.past.shard < number)
            }
            NumberField::Connection => number < CONNECTION_LIMIT,
            NumberField::ValueLength => number <= VALUE_LIMIT,
            NumberField::FoundLength => number <= VALUE_LIMIT,
            NumberField::HoldConnection => { self.past.conn <= number && number < CONNECTION_LIMIT }
            NumberField::HoldCore => number < CORE_LIMIT,
            NumberField::HoldCount => 1 <= number && number <= HOLD_LIMIT,
            NumberField::Part => true,
            NumberField::Flags => true,
            NumberField::FoundFlags => true,
        }
    }

    // Takes a valid number.
    pub(super) fn take_number(
        &mut self,
        alloc: Global,
        field: NumberField,
        number: u32,
    ) -> Result<Option<()>, FileFeed>
        requires due { self.old.due ≡ Dues.Number field }
        ensures value { TakesStep (after_four field self.old number) self.old self.new result }
    {
        match field {
            NumberField::Shard => {
                self.draft.shard = number;
                self.due = Due::Number(NumberField::Connection);
            }
            NumberField::Connection => {
                self.draft.conn = number;
                self.due = Due::Long(LongField::Index);
            }
            NumberField::Part => {
                self.draft.part = number;
                self.due = Due::Byte(ByteField::CallCode);
            }
            NumberField::Flags => {
                self.draft.flags = number;
                self.due = at_number(self.draft.kind.fields());
            }
            NumberField::ValueLength => self.begin_value(alloc, number),
            NumberField::FoundFlags => {
                self.draft.found_flags = number;
                self.due = Due::Long(LongField::FoundUnique);
            }
            NumberField::FoundLength => return self.begin_found(alloc, number),
            NumberField::HoldConnection => {
                self.draft.conn = number;
                self.due = Due::Number(NumberField::HoldCore);
            }
            NumberField::HoldCore => {
                self.draft.core = number;
                self.due = Due::Number(NumberField::HoldCount);
            }
            NumberField::HoldCount => return self.end_hold(alloc, number),
        }
        Ok(None)
    }

    // Takes the length of the value that a call stores.
    fn begin_value(&mut self, alloc: Global, size: u32)
        requires due { self.old.due ≡ Dues.Number Numbers.ValueLength }
        ensures value { after_four Numbers.ValueLength self.old size ≡ Then self.new }
    {
        if size == 0 {
            self.draft.value = Blob::new(alloc);
            self.due = Due::Byte(ByteField::ReplyCode);
        } else {
            self.begin_bytes(BytesField::Value, size);
        }
    }

    // Takes the length of the value that a get found.
    fn begin_found(&mut self, alloc: Global, size: u32) -> Result<Option<()>, FileFeed>
        requires due { self.old.due ≡ Dues.Number Numbers.FoundLength }
        ensures value { TakesStep (after_four Numbers.FoundLength self.old size) self.old self.new result }
    {
        if size == 0 {
            return self.end_hit(alloc, Blob::new(alloc));
        }
        self.begin_bytes(BytesField::FoundValue, size);
        Ok(None)
    }
}
