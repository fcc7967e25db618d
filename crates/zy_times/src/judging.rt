//! Checking whether a journal fits the times of a recording.
ghost use Rattle.std.specs.Prelude.{◌≡◌, ℕ, IfOk};
ghost use Rattle.zy_times.specs.Recording.{Recording};
ghost use Rattle.zy_times.specs.InTime.{HasTiming};
ghost use Rattle.zy_times.specs.Recorded.{IsRecorded, IsOfRun, OthersHaveNoMarks};
ghost use Rattle.zy_times.specs.Spans.{AreSpans};

use crate::late::{Late, first_late, first_unsent};
use crate::spans::{Spans, find_spans};
use crate::times::Times;
use crate::timing::Timing;
use std::alloc::Global;
use zy_base::NoMemory;
use zy_check::Answered;
use zy_journal::Journal;

/// Checks whether a journal fits the times of a recording. May answer `NoMemory`.
pub fn judge(
    alloc: Global,
    times: &Times,
    answered: &Answered,
    journal: &Journal,
) -> Result<Timing, NoMemory>
    requires recorded { (r : Recording) × (count : ℕ) × IsRecorded r count times.now answered.now journal.now.entries }
    ensures timing { IfOk result (λ timing. (r : Recording) (count : ℕ)
        → IsRecorded r count times.now answered.now journal.now.entries → HasTiming r count timing) }
{
    let spans = find_spans(alloc, times, answered)?;
    let timing = timing_by(&spans, journal);
    drop(spans);
    timing
}

// Checks the same, by when the commands were sent and had ended.
fn timing_by(spans: &Spans, journal: &Journal) -> Result<Timing, NoMemory>
    requires holds { (r : Recording) × (count : ℕ) × IsOfRun r count × (r.entries ≡ journal.now.entries)
        × AreSpans r count spans.now }
    ensures timing { IfOk result (λ timing. (r : Recording) (count : ℕ) → IsOfRun r count
        → r.entries ≡ journal.now.entries → AreSpans r count spans.now → OthersHaveNoMarks r count
        → HasTiming r count timing) }
{
    if let Some(moment) = spans.unfit {
        return Ok(Timing::EarlyEnd {
            record: (moment - 1) as u64,
        });
    }
    if let Some(Late { entry, moment }) = first_late(spans, journal)? {
        let after = first_unsent(spans, journal, moment)?;
        return Ok(Timing::OutOfTime { entry, after });
    }
    spans.numbers()
}
