//! The parts of an entry's text that are put together.
ghost use Rattle.std.specs.Prelude.{◌≡◌, ◌+◌, ◌≤◌, ◌++◌, option_copied};
ghost use Rattle.arrayvec.specs.ArrayVec.{array_vec_len};
ghost use Rattle.mc_calls.specs.Bounds.{IsCall, IsReply};
ghost use Rattle.zy_journal.specs.Journal.{entry_head};
ghost use Rattle.zy_journal.specs.Pieces.{lent_bytes, call_head, reply_head};

use crate::gathered::{put, put_counts, put_fields, put_key};
use arrayvec::ArrayVec;
use mc_history::EntryRef;
use zy_base::Blob;

// Appends an entry up to the value of its call.
pub(crate) fn put_call<const N: usize>(text: &mut ArrayVec<u8, N>, entry: &EntryRef<'_>)
    requires room { array_vec_len text.old + 297 ≤ N }
    requires fits { IsCall entry.now.call }
    ensures value { text.new.items ≡ text.old.items ++ (entry_head entry.now ++ call_head entry.now.call) }
    ensures len { array_vec_len text.new ≤ array_vec_len text.old + 297 }
{
    put_head(text, entry);
    put(text, &[entry.code()]);
    put_key(text, entry.key());
    put_fields(text, entry.flags(), entry.number(), entry.value());
}

// Appends an entry up to its call.
fn put_head<const N: usize>(text: &mut ArrayVec<u8, N>, entry: &EntryRef<'_>)
    requires room { array_vec_len text.old + 29 ≤ N }
    ensures value { text.new.items ≡ text.old.items ++ entry_head entry.now }
    ensures len { array_vec_len text.new ≡ array_vec_len text.old + 29 }
{
    let tag = entry.tag();
    put(text, b"J");
    put(text, &entry.stamp().to_be_bytes());
    put(text, &entry.shard().to_be_bytes());
    put(text, &tag.conn.to_be_bytes());
    put(text, &tag.index.to_be_bytes());
    put(text, &tag.part.to_be_bytes());
}

// Appends the reply of an entry up to its value.
pub(crate) fn put_reply<const N: usize>(text: &mut ArrayVec<u8, N>, entry: &EntryRef<'_>)
    requires room { array_vec_len text.old + 57 ≤ N }
    requires fits { IsReply entry.now.reply }
    ensures value { text.new.items ≡ text.old.items ++ reply_head entry.now.reply }
{
    put(text, &[entry.reply_code()]);
    put_counts(text, entry.reply_counts());
    put_fields(
        text,
        entry.reply_flags(),
        entry.reply_number(),
        entry.reply_value(),
    );
}

// Returns the bytes of a field, if it is there.
pub(crate) fn bytes_of<'a>(field: Option<&'a Blob>) -> &'a [u8]
    ensures value { result.now ≡ lent_bytes (option_copied field.entry) }
{
    match field {
        Some(field) => field.bytes(),
        None => &[],
    }
}
