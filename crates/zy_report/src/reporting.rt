//! The report on a journal.
ghost use Rattle.std.specs.Prelude.{◌≡◌, IfOk};
ghost use Rattle.zy_report.specs.Report.{report_of};

use crate::table::table;
use crate::tallies::counts_by_shard;
use std::alloc::Global;
use zy_base::{Blob, NoMemory};
use zy_journal::Journal;

/// Returns the table of what the entries of a journal count: a line for each shard of which a count
/// is not 0, by rising shard, and then a line of the sums.
pub fn report(alloc: Global, journal: &Journal) -> Result<Blob, NoMemory>
    ensures value { IfOk result (λ text. text ≡ report_of journal.now.entries) }
{
    let counts = counts_by_shard(alloc, journal)?;
    let text = table(alloc, counts.as_slice());
    drop(counts);
    text
}
