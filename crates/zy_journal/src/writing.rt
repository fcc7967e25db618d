//! The writer of journals.
ghost use Rattle.std.specs.Prelude.{flat_map};
ghost use Rattle.std.specs.List.{AllByRecursion};
ghost use Rattle.zy_base.specs.Outside.{Writes};
ghost use Rattle.zy_journal.specs.Journal.{IsJournal, IsEntry, journal_bytes, entry_text, hold_text};

use crate::journal::Journal;
use crate::pieces::{bytes_of, put_call, put_reply};
use crate::walk::Walk;
use arrayvec::ArrayVec;
use mc_calls::Hold;
use mc_history::EntryRef;
use zy_base::{Failed, Sink, write_pieces, write_whole};

/// Writes a journal whose numbers, keys and values are within the format's bounds. Takes no memory.
///
/// Answers `Failed` only if the sink's count of faults rose, or is at its largest value; then the
/// sink has grown by a prefix of that text.
pub fn write_journal<K: Sink>(sink: &mut K, journal: &Journal) -> Result<(), Failed>
    requires fits { IsJournal journal.now }
    ensures writes { Writes K.holds K.faults K.finishes sink.old sink.new result (journal_bytes journal.now) }
{
    write_whole(sink, b"ZYGJRN1\n")?;
    write_entries(sink, journal.entries())?;
    write_holds(sink, journal.holds())?;
    write_whole(sink, b"E")
}

fn write_entries<K: Sink>(sink: &mut K, entries: Walk<'_>) -> Result<(), Failed>
    requires fits { AllByRecursion IsEntry entries }
    ensures writes { Writes K.holds K.faults K.finishes sink.old sink.new result (flat_map entry_text entries.entry) }
{
    let mut left = entries;
    while let Some(entry) = left.next() {
        write_entry(sink, &entry)?;
    }
    Ok(())
}

fn write_holds<K: Sink>(sink: &mut K, holds: &[Hold]) -> Result<(), Failed>
    ensures writes { Writes K.holds K.faults K.finishes sink.old sink.new result
        (flat_map hold_text holds.now) }
{
    for hold in holds {
        write_hold(sink, hold)?;
    }
    Ok(())
}

fn write_hold<K: Sink>(sink: &mut K, hold: &Hold) -> Result<(), Failed>
    ensures writes { Writes K.holds K.faults K.finishes sink.old sink.new result (hold_text hold.now) }
{
    let conn = hold.conn.to_be_bytes();
    let core = hold.core.to_be_bytes();
    let count = hold.count.to_be_bytes();
    write_pieces(sink, &[b"H", &conn, &core, &count])
}

// Writes an entry in one go. Values are written where they are, and what is short is put together first.
fn write_entry<K: Sink>(sink: &mut K, entry: &EntryRef<'_>) -> Result<(), Failed>
    requires fits { IsEntry entry.now }
    ensures writes { Writes K.holds K.faults K.finishes sink.old sink.new result (entry_text entry.now) }
{
    let mut text: ArrayVec<u8, 354> = ArrayVec::new();
    put_call(&mut text, entry);
    let last = bytes_of(entry.reply_value());
    match entry.value() {
        None => {
            put_reply(&mut text, entry);
            write_pieces(sink, &[text.as_slice(), last])
        }
        Some(value) => {
            let mut reply: ArrayVec<u8, 57> = ArrayVec::new();
            put_reply(&mut reply, entry);
            write_pieces(
                sink,
                &[text.as_slice(), value.bytes(), reply.as_slice(), last],
            )
        }
    }
}
