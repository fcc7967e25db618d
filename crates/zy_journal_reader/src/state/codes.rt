//! Fields of one byte: the magic, tags, codes and the lengths of keys.
ghost use Rattle.std.specs.Prelude.{◌≡◌, ◌+◌, ℕ, Ok};
ghost use Rattle.zy_read.specs.Fields.Judged.{Then};
ghost use Rattle.zy_read.specs.FieldReading.{Judges};
ghost use Rattle.zy_journal_reader.specs.declared.due.Due.TheVariants as Dues;
ghost use Rattle.zy_journal_reader.specs.declared.due.ByteField.TheVariants as Codes;
ghost use Rattle.zy_journal_reader.specs.Steps.{lawful_byte, after_byte, begins_bytes};
ghost use Rattle.zy_journal_reader.specs.Standing.{TakesStep, FitsPlace, Wants};

use super::JournalState;
use crate::call_fields::at_key;
use crate::due::{ByteField, BytesField, Due, LongField, NumberField};
use mc_calls::{
    CallKind, CallReply, HIT_CODE, LAST_CALL_CODE, LAST_REPLY_CODE, NUMBER_CODE, TALLY_CODE,
};
use std::alloc::Global;
use zy_base::KEY_LIMIT;
use zy_read::FileFeed;

const MAGIC: &[u8; 8] = b"ZYGJRN1\n";

impl JournalState {
    // Takes a valid field of one byte.
    #[tactic(auto, using(crate::proofs::PlacedLemmas::placed))]
    pub(super) fn take_byte(
        &mut self,
        alloc: Global,
        field: ByteField,
        at: u64,
        byte: u8,
    ) -> Result<Option<()>, FileFeed>
        requires due { self.old.due ≡ Dues.Byte field }
        requires fits { FitsPlace self.old at }
        ensures value { Judges FitsPlace Wants (after_byte field self.old at byte) (at + 1)
            self.old self.new result }
    {
        match field {
            ByteField::Magic => {
                self.due = Due::Byte(if at == 7 {
                    ByteField::Tag
                } else {
                    ByteField::Magic
                });
            }
            ByteField::Tag => return Ok(self.take_tag(byte)),
            ByteField::CallCode => {
                let kind = CallKind::of(byte);
                self.draft.kind = kind;
                self.due = at_key(kind.fields());
            }
            ByteField::KeyLength => self.begin_bytes(BytesField::Key, u32::from(byte)),
            ByteField::ReplyCode => return self.take_reply_code(alloc, byte),
        }
        Ok(None)
    }

    // Checks whether the byte is allowed there.
    pub(super) fn is_lawful_byte(&self, field: ByteField, at: u64, byte: u8) -> bool
        requires due { self.now.due ≡ Dues.Byte field }
        requires fits { FitsPlace self.now at }
        ensures value { result ≡ lawful_byte field self.now at byte }
    {
        match field {
            ByteField::Magic => byte == MAGIC[at as usize],
            ByteField::Tag => {
                byte == b'E' || byte == b'H' || (byte == b'J' && self.holds.len() == 0)
            }
            ByteField::CallCode => 1 <= byte && byte <= LAST_CALL_CODE,
            ByteField::ReplyCode => 1 <= byte && byte <= LAST_REPLY_CODE,
            ByteField::KeyLength => 1 <= byte && byte <= KEY_LIMIT,
        }
    }

    // Takes the tag of a record, or the end.
    fn take_tag(&mut self, byte: u8) -> Option<()>
        ensures value { TakesStep (after_byte Codes.Tag self.old 0 byte) self.old self.new
            (Ok result) }
    {
        match byte {
            b'E' => {
                self.due = Due::Nothing;
                return Some(());
            }
            b'H' => self.due = Due::Number(NumberField::HoldConnection),
            _ => self.due = Due::Long(LongField::Stamp),
        }
        None
    }

    // Takes the code of a reply.
    fn take_reply_code(&mut self, alloc: Global, byte: u8) -> Result<Option<()>, FileFeed>
        requires due { self.old.due ≡ Dues.Byte Codes.ReplyCode }
        ensures value { TakesStep (after_byte Codes.ReplyCode self.old 0 byte) self.old self.new result }
    {
        if byte == HIT_CODE {
            self.due = Due::Number(NumberField::FoundFlags);
        } else if byte == NUMBER_CODE {
            self.due = Due::Long(LongField::ReplyNumber);
        } else if byte == TALLY_CODE {
            self.due = Due::Long(LongField::Gets);
        } else {
            return self.end_entry(alloc, CallReply::plain(byte));
        }
        Ok(None)
    }

    // Takes a length that is not 0.
    pub(super) fn begin_bytes(&mut self, field: BytesField, size: u32)
        ensures value { begins_bytes self.old field size ≡ Then self.new }
    {
        self.draft.size = size;
        self.due = Due::Bytes(field);
    }
}
