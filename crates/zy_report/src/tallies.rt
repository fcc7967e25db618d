//! What is counted of the entries of each shard.
ghost use Rattle.std.specs.Prelude.{◌≡◌, ◌≤◌, ◌<◌, ◌-◌, ◌^◌, ◌+◌, ◌++◌, ◌∷◌, [], List, ℕ, length, max, IfOk, OnOk};
ghost use Rattle.mc_calls.specs.declared.entry.Entry.{Entry};
ghost use Rattle.zy_report.specs.Report.{counts_by_shard};
ghost use Rattle.zy_report.specs.Tally.{CanCount, CountsAll, kept_at};

use crate::tally::Tally;
use mc_calls::Tallied;
use mc_history::EntryRef;
use std::alloc::Global;
use zy_base::NoMemory;
use zy_journal::{Journal, Walk};

/// Returns what is counted of each shard, from shard 0 up to the last one that an entry names.
pub(crate) fn counts_by_shard(alloc: Global, journal: &Journal) -> Result<Vec<Tallied>, NoMemory>
    ensures value { IfOk result (λ counts. counts.items ≡ counts_by_shard journal.now.entries) }
{
    let tallies = tallies_of(alloc, journal)?;
    let counts = counts_of(alloc, tallies.as_slice());
    drop(tallies);
    counts
}

// Returns the tallies of all shards.
fn tallies_of<'j>(alloc: Global, journal: &'j Journal) -> Result<Vec<Tally<'j>>, NoMemory>
    ensures value { IfOk result (λ tallies. CountsAll tallies.items journal.now.entries) }
{
    if journal.count().is_none() {
        // No journal has more entries than 64 bits count.
        return Err(NoMemory);
    }
    let mut tallies = Vec::new(alloc);
    match add_all(alloc, &mut tallies, journal.entries()) {
        Ok(()) => Ok(tallies),
        Err(refused) => {
            drop(tallies);
            Err(refused)
        }
    }
}

// Counts all entries.
fn add_all<'j>(
    alloc: Global,
    tallies: &mut Vec<Tally<'j>>,
    entries: Walk<'j>,
) -> Result<(), NoMemory>
    requires few { length entries ≤ 2 ^ 64 - 1 }
    requires none { tallies.old.items ≡ [] }
    ensures ok { OnOk result (CountsAll tallies.new.items entries.entry) }
{
    let mut left = entries;
    while let Some(entry) = left.next() {
        add(alloc, tallies, &entry)?;
    }
    Ok(())
}

// Counts one more entry, at its shard.
fn add<'j>(
    alloc: Global,
    tallies: &mut Vec<Tally<'j>>,
    entry: &EntryRef<'j>,
) -> Result<(), NoMemory>
    requires room { CanCount (kept_at tallies.old.items entry.now.shard) }
    ensures ok { OnOk result ((es : List Entry) → CountsAll tallies.old.items es
        → CountsAll tallies.new.items (es ++ entry.now ∷ [])) }
{
    let shard = entry.shard() as usize;
    make_up_to(alloc, tallies, shard)?;
    tallies[shard].add(entry)
}

// Makes the tallies up to that of a shard, if they are not there.
fn make_up_to<'j>(alloc: Global, tallies: &mut Vec<Tally<'j>>, shard: usize) -> Result<(), NoMemory>
    requires within { shard < 2 ^ 32 }
    ensures size { OnOk result (length tallies.new.items ≡ max (length tallies.old.items) (shard + 1)) }
    ensures kept { (at : ℕ) → kept_at tallies.new.items at ≡ kept_at tallies.old.items at }
{
    while tallies.len() <= shard {
        if let Err(e) = tallies.push(Tally::new(alloc)) {
            drop(e);
            return Err(NoMemory);
        }
    }
    Ok(())
}

// Returns the counts of the tallies.
fn counts_of(alloc: Global, tallies: &[Tally<'_>]) -> Result<Vec<Tallied>, NoMemory>
    ensures value { IfOk result (λ counts. (es : List Entry) → CountsAll tallies.now es
        → counts.items ≡ counts_by_shard es) }
{
    let Ok(mut counts) = Vec::with_capacity(alloc, tallies.len()) else {
        return Err(NoMemory);
    };
    for tally in tallies {
        counts.push_reserved(tally.counted());
    }
    Ok(counts)
}
