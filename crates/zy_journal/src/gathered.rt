//! Fields that are put together before they are written.
ghost use Rattle.std.specs.Prelude.{◌≡◌, ◌+◌, ◌≤◌, ◌++◌, length, IfSome, option_copied};
ghost use Rattle.std.specs.Int.{to_be_bytes, w32, w64};
ghost use Rattle.arrayvec.specs.ArrayVec.{array_vec_len};
ghost use Rattle.mc_calls.specs.Bounds.{IsKey, IsValue};
ghost use Rattle.zy_journal.specs.Journal.{field_text, key_text, counts_text};
ghost use Rattle.zy_journal.specs.Pieces.{value_head, fields_head};

use arrayvec::ArrayVec;
use mc_calls::Tallied;
use zy_base::Blob;

// Appends a field, for which there is room.
pub(crate) fn put<const N: usize>(text: &mut ArrayVec<u8, N>, field: &[u8])
    requires room { array_vec_len text.old + length field.now ≤ N }
    ensures value { text.new.items ≡ text.old.items ++ field.now }
    ensures len { array_vec_len text.new ≡ array_vec_len text.old + length field.now }
{
    if text.try_extend_from_slice(field).is_err() {
        unreachable!()
    }
}

// Appends the length and the bytes of a key, if there is one.
pub(crate) fn put_key<const N: usize>(text: &mut ArrayVec<u8, N>, key: Option<&Blob>)
    requires room { array_vec_len text.old + 251 ≤ N }
    requires fits { IfSome (option_copied key) IsKey }
    ensures value { text.new.items ≡ text.old.items ++ field_text key_text (option_copied key.entry) }
    ensures len { array_vec_len text.new ≤ array_vec_len text.old + 251 }
{
    if let Some(key) = key {
        let bytes = key.bytes();
        put(text, &[bytes.len() as u8]);
        put(text, bytes);
    }
}

// Appends the five numbers of a tally, if they are there.
pub(crate) fn put_counts<const N: usize>(text: &mut ArrayVec<u8, N>, counts: Option<Tallied>)
    requires room { array_vec_len text.old + 40 ≤ N }
    ensures value { text.new.items ≡ text.old.items ++ field_text counts_text counts }
    ensures len { array_vec_len text.new ≤ array_vec_len text.old + 40 }
{
    if let Some(counts) = counts {
        put(text, &counts.gets.to_be_bytes());
        put(text, &counts.sets.to_be_bytes());
        put(text, &counts.hits.to_be_bytes());
        put(text, &counts.misses.to_be_bytes());
        put(text, &counts.items.to_be_bytes());
    }
}

// Appends the flags, a number and the length of a value, each if it is there.
pub(crate) fn put_fields<const N: usize>(
    text: &mut ArrayVec<u8, N>,
    flags: Option<u32>,
    number: Option<u64>,
    value: Option<&Blob>,
)
    requires room { array_vec_len text.old + 16 ≤ N }
    requires fits { IfSome (option_copied value) IsValue }
    ensures value { text.new.items ≡ text.old.items ++ fields_head flags number (option_copied value.entry) }
    ensures len { array_vec_len text.new ≤ array_vec_len text.old + 16 }
{
    put_flags(text, flags);
    put_number(text, number);
    put_value_head(text, value);
}

// Appends the flags, if they are there.
fn put_flags<const N: usize>(text: &mut ArrayVec<u8, N>, flags: Option<u32>)
    requires room { array_vec_len text.old + 4 ≤ N }
    ensures value { text.new.items ≡ text.old.items ++ field_text (to_be_bytes w32) flags }
    ensures len { array_vec_len text.new ≤ array_vec_len text.old + 4 }
{
    if let Some(flags) = flags {
        put(text, &flags.to_be_bytes());
    }
}

// Appends a number, if it is there.
fn put_number<const N: usize>(text: &mut ArrayVec<u8, N>, number: Option<u64>)
    requires room { array_vec_len text.old + 8 ≤ N }
    ensures value { text.new.items ≡ text.old.items ++ field_text (to_be_bytes w64) number }
    ensures len { array_vec_len text.new ≤ array_vec_len text.old + 8 }
{
    if let Some(number) = number {
        put(text, &number.to_be_bytes());
    }
}

// Appends the length of a value, if there is one.
fn put_value_head<const N: usize>(text: &mut ArrayVec<u8, N>, value: Option<&Blob>)
    requires room { array_vec_len text.old + 4 ≤ N }
    requires fits { IfSome (option_copied value) IsValue }
    ensures value { text.new.items ≡ text.old.items ++ value_head (option_copied value.entry) }
    ensures len { array_vec_len text.new ≤ array_vec_len text.old + 4 }
{
    if let Some(value) = value {
        let length = value.bytes().len() as u32;
        put(text, &length.to_be_bytes());
    }
}
