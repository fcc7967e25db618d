//! The table of counts.
ghost use Rattle.std.specs.Prelude.{◌≡◌, ◌+◌, ◌++◌, IfOk, IfSome, OnOk, codes};
ghost use Rattle.zy_report.specs.Report.{counts_nothing, sums, shard_text, shards_text, table};

use crate::lines::append_line;
use itoa::Buffer;
use mc_calls::Tallied;
use std::alloc::Global;
use zy_base::{Blob, NoMemory};

/// Returns the lines of all shards, from shard 0 on, and the line of their sums.
pub(crate) fn table(alloc: Global, counts: &[Tallied]) -> Result<Blob, NoMemory>
    ensures value { IfOk result (λ text. text ≡ table counts.now) }
{
    let mut text = Blob::new(alloc);
    match append_table(&mut text, counts) {
        Ok(()) => Ok(text),
        Err(refused) => {
            drop(text);
            Err(refused)
        }
    }
}

// Appends the table.
fn append_table(text: &mut Blob, counts: &[Tallied]) -> Result<(), NoMemory>
    ensures ok { OnOk result (text.new ≡ text.old ++ table counts.now) }
{
    let Some(all) = sums(counts) else {
        // The counts of a journal add up to no more than its entries.
        return Err(NoMemory);
    };
    append_shards(text, counts)?;
    append_line(text, b"all", all)
}

// Appends the lines of the shards.
fn append_shards(text: &mut Blob, counts: &[Tallied]) -> Result<(), NoMemory>
    ensures ok { OnOk result (text.new ≡ text.old ++ shards_text 0 counts.now) }
{
    for shard in 0..counts.len() {
        append_shard(text, shard as u64, counts[shard])?;
    }
    Ok(())
}

// Appends the line of a shard, if a count is not 0.
fn append_shard(text: &mut Blob, shard: u64, counts: Tallied) -> Result<(), NoMemory>
    ensures ok { OnOk result (text.new ≡ text.old ++ shard_text shard counts) }
{
    if counts_nothing(counts) {
        return Ok(());
    }
    let mut buffer = Buffer::new();
    append_line(text, buffer.format(shard).as_bytes(), counts)
}

// Checks whether all counts are 0.
fn counts_nothing(counts: Tallied) -> bool
    ensures value { result ≡ counts_nothing counts }
{
    counts.gets == 0
        && counts.sets == 0
        && counts.hits == 0
        && counts.misses == 0
        && counts.items == 0
}

// Returns the sums; `None` if one of them does not fit in 64 bits.
fn sums(counts: &[Tallied]) -> Option<Tallied>
    ensures value { IfSome result (λ all. all ≡ sums counts.now) }
{
    let mut all = Tallied {
        gets: 0,
        sets: 0,
        hits: 0,
        misses: 0,
        items: 0,
    };
    for one in counts {
        all = match sum(all, *one) {
            Some(all) => all,
            None => return None,
        };
    }
    Some(all)
}

// Adds the counts of two shards.
fn sum(one: Tallied, other: Tallied) -> Option<Tallied>
    ensures value { IfSome result (λ both. both ≡ record {
      gets = one.gets + other.gets;
      sets = one.sets + other.sets;
      hits = one.hits + other.hits;
      misses = one.misses + other.misses;
      items = one.items + other.items;
    }) }
{
    Some(Tallied {
        gets: one.gets.checked_add(other.gets)?,
        sets: one.sets.checked_add(other.sets)?,
        hits: one.hits.checked_add(other.hits)?,
        misses: one.misses.checked_add(other.misses)?,
        items: one.items.checked_add(other.items)?,
    })
}
