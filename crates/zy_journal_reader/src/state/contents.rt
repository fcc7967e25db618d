//! Keys and values.
ghost use Rattle.std.specs.Prelude.{◌≡◌, ℕ};
ghost use Rattle.zy_journal_reader.specs.declared.due.Due.TheVariants as Dues;
ghost use Rattle.zy_journal_reader.specs.Steps.{after_bytes};
ghost use Rattle.zy_journal_reader.specs.Standing.{TakesStep};

use super::JournalState;
use crate::call_fields::at_flags;
use crate::due::{ByteField, BytesField, Due};
use std::alloc::Global;
use zy_base::Blob;
use zy_read::FileFeed;

impl JournalState {
    // Takes a whole key or value. If it ends an entry, it needs memory.
    pub(super) fn take_contents(
        &mut self,
        alloc: Global,
        field: BytesField,
        all: Blob,
    ) -> Result<Option<()>, FileFeed>
        requires due { self.old.due ≡ Dues.Bytes field }
        ensures value { TakesStep (after_bytes field self.old all) self.old self.new result }
    {
        match field {
            BytesField::Key => {
                self.draft.key = all;
                self.draft.size = 0;
                self.due = at_flags(self.draft.kind.fields());
            }
            BytesField::Value => {
                self.draft.value = all;
                self.draft.size = 0;
                self.due = Due::Byte(ByteField::ReplyCode);
            }
            BytesField::FoundValue => return self.end_hit(alloc, all),
        }
        Ok(None)
    }
}
