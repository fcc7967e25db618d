//! The count of items, as changes of the items change it.
ghost use Rattle.std.specs.Prelude.{◌≡◌, ◌<◌, ◌≤◌, ◌-◌, ◌^◌, true, if◌then◌else◌};
ghost use Rattle.mc_stats.specs.Counts.{with_item, without_item};

use mc_stats::Counts;

/// Counts an item that was put at a key, by whether the key had one before.
pub(crate) fn count_put(counts: &mut Counts, had: bool)
    requires room { counts.old.items < 2 ^ 64 - 1 }
    ensures value { counts.new ≡ (if had then counts.old else with_item counts.old) }
{
    if !had {
        counts.added();
    }
}

/// Counts the removal of a key's item, by whether the key had one.
pub(crate) fn count_removed(counts: &mut Counts, had: bool)
    requires some { had ≡ true → 1 ≤ counts.old.items }
    ensures value { counts.new ≡ (if had then without_item counts.old else counts.old) }
{
    if had {
        counts.removed();
    }
}
