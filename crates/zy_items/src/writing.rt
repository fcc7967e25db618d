//! The writer of items files.
ghost use Rattle.std.specs.Prelude.{flat_map};
ghost use Rattle.zy_base.specs.Outside.{Writes};
ghost use Rattle.zy_items.specs.Standing.{standing_of};
ghost use Rattle.zy_items.specs.Items.{items_bytes, item_text, lasting_text};

use crate::standing::{KeptItem, Standing};
use std::collections::BTreeSet;
use zy_base::{Blob, Failed, Sink, write_pieces, write_whole};

/// Writes the items file of what a server has. Takes no memory.
///
/// Answers `Failed` only if the sink's count of faults rose, or is at its largest value; then the
/// sink has grown by a prefix of that text.
pub fn write_items<K: Sink>(sink: &mut K, standing: &Standing) -> Result<(), Failed>
    ensures writes { Writes K.holds K.faults K.finishes sink.old sink.new result
        (items_bytes (standing_of standing.now)) }
{
    let bound = standing.bound.to_be_bytes();
    write_pieces(sink, &[b"ZYGITM1\n", &bound])?;
    write_all_items(sink, standing.items.as_slice())?;
    write_lasting(sink, &standing.lasting)?;
    write_whole(sink, b"E")
}

// Writes the items.
fn write_all_items<K: Sink>(sink: &mut K, items: &[KeptItem]) -> Result<(), Failed>
    ensures writes { Writes K.holds K.faults K.finishes sink.old sink.new result
        (flat_map item_text items.now) }
{
    for kept in items {
        write_item(sink, kept)?;
    }
    Ok(())
}

// Writes an item.
fn write_item<K: Sink>(sink: &mut K, kept: &KeptItem) -> Result<(), Failed>
    ensures writes { Writes K.holds K.faults K.finishes sink.old sink.new result
        (item_text kept.now) }
{
    let key = kept.key.bytes();
    let value = kept.item.value.bytes();
    let key_size = (key.len() as u64).to_be_bytes();
    let flags = kept.item.flags.to_be_bytes();
    let unique = kept.item.unique.to_be_bytes();
    let size = (value.len() as u64).to_be_bytes();
    write_pieces(sink, &[b"I", &key_size, key, &flags, &unique, &size, value])
}

// Writes the lasting keys.
fn write_lasting<K: Sink>(sink: &mut K, keys: &BTreeSet<Blob>) -> Result<(), Failed>
    ensures writes { Writes K.holds K.faults K.finishes sink.old sink.new result
        (flat_map lasting_text keys.now.keys) }
{
    for key in keys.iter() {
        write_key(sink, key)?;
    }
    Ok(())
}

// Writes a lasting key.
fn write_key<K: Sink>(sink: &mut K, key: &Blob) -> Result<(), Failed>
    ensures writes { Writes K.holds K.faults K.finishes sink.old sink.new result
        (lasting_text key.now) }
{
    let size = (key.bytes().len() as u64).to_be_bytes();
    write_pieces(sink, &[b"L", &size, key.bytes()])
}
