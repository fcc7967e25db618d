//! Entries whose commands had ended before that of an earlier entry was sent.
ghost use Rattle.std.specs.Prelude.{◌≡◌, ◌<◌, ◌≤◌, max, ℕ, None, Some, IfOk};
ghost use Rattle.std.specs.List.{slice_get};
ghost use Rattle.zy_times.specs.Recording.{Recording};
ghost use Rattle.zy_times.specs.InTime.{numbered_entry};
ghost use Rattle.zy_times.specs.Spans.{AreSpans, SpanHolds};
ghost use Rattle.zy_times.specs.Recorded.{IsOfRun, FoundLate, IsFirstUnsent};

use crate::span::Span;
use crate::spans::Spans;
use mc_history::EntryRef;
use zy_base::NoMemory;
use zy_journal::Journal;

/// An entry that is late, and the first moment at which its command had ended.
#[derive(Clone, Copy)]
pub(crate) struct Late {
    pub(crate) entry: u64,
    pub(crate) moment: u32,
}

// Returns the first entry whose command had ended before the command of an earlier entry was sent,
// if there is one.
pub(crate) fn first_late(spans: &Spans, journal: &Journal) -> Result<Option<Late>, NoMemory>
    requires holds { (r : Recording) × (count : ℕ) × IsOfRun r count × (r.entries ≡ journal.now.entries)
        × AreSpans r count spans.now }
    ensures found { IfOk result (λ found. (r : Recording) (count : ℕ) → IsOfRun r count
        → r.entries ≡ journal.now.entries → AreSpans r count spans.now → FoundLate r found) }
{
    let mut latest = 0u32;
    let mut entries = journal.entries();
    for at in 0..u64::MAX {
        let Some(entry) = entries.next() else {
            return Ok(None);
        };
        let span = span_of(spans, &entry);
        if let Some(moment) = end_before(span.end, latest) {
            return Ok(Some(Late { entry: at, moment }));
        }
        latest = later_of(latest, span.sent);
    }
    // There are more entries than 64 bits count.
    Err(NoMemory)
}

// Returns the span of an entry's command.
fn span_of(spans: &Spans, entry: &EntryRef<'_>) -> Span
    requires holds { (r : Recording) × (count : ℕ) × (p : ℕ) × IsOfRun r count × AreSpans r count spans.now
        × (slice_get r.entries p ≡ Some entry.now) }
    ensures span { (r : Recording) (count p : ℕ) → IsOfRun r count → AreSpans r count spans.now
        → slice_get r.entries p ≡ Some entry.now
        → SpanHolds r entry.now.tag.conn (numbered_entry r entry.now) result }
{
    let tag = entry.tag();
    spans.lines[tag.conn as usize][tag.index as usize]
}

// Returns the end, if it is before a moment.
fn end_before(end: Option<u32>, latest: u32) -> Option<u32>
    ensures some { (moment : ℕ) → result ≡ Some moment → (end ≡ Some moment) × (moment < latest) }
    ensures none { result ≡ None → (moment : ℕ) → end ≡ Some moment → latest ≤ moment }
{
    match end {
        Some(moment) => { if moment < latest { Some(moment) } else { None } }
        None => None,
    }
}

// Returns the later of two moments.
fn later_of(one: u32, other: u32) -> u32
    ensures value { result ≡ max one other }
{
    if one < other { other } else { one }
}

// Returns the first entry whose command was not sent at a moment.
pub(crate) fn first_unsent(spans: &Spans, journal: &Journal, moment: u32) -> Result<u64, NoMemory>
    requires holds { (r : Recording) × (count : ℕ) × IsOfRun r count × (r.entries ≡ journal.now.entries)
        × AreSpans r count spans.now }
    ensures found { IfOk result (λ found. (r : Recording) (count : ℕ) → IsOfRun r count
        → r.entries ≡ journal.now.entries → AreSpans r count spans.now → IsFirstUnsent r moment found) }
{
    let mut entries = journal.entries();
    for at in 0..u64::MAX {
        let Some(entry) = entries.next() else {
            return Err(NoMemory);
        };
        if moment < span_of(spans, &entry).sent {
            return Ok(at);
        }
    }
    Err(NoMemory)
}
