//! When the commands of all connections were sent and had ended.
ghost use Rattle.std.specs.Prelude.{◌≡◌, ℕ, map, IfOk};
ghost use Rattle.zy_times.specs.Recording.{Recording};
ghost use Rattle.zy_times.specs.Times.{trues};
ghost use Rattle.zy_times.specs.Recorded.{IsKept, HasNumbers};
ghost use Rattle.zy_times.specs.Spans.{AreSpans, has_end};

use crate::fitting::earlier;
use crate::span::Span;
use crate::times::Times;
use crate::timing::Timing;
use crate::walk::{Walk, walk_sessions};
use std::alloc::Global;
use zy_base::NoMemory;
use zy_check::Answered;

/// The spans of each connection's commands, and the first moment at which marks do not fit, if
/// there is one.
#[derive(Drop)]
pub(crate) struct Spans {
    pub(crate) lines: Vec<Vec<Span>>,
    pub(crate) unfit: Option<u32>,
}

// Finds when the commands of all connections were sent and had ended.
pub(crate) fn find_spans(
    alloc: Global,
    times: &Times,
    answered: &Answered,
) -> Result<Spans, NoMemory>
    requires kept { (r : Recording) × (count : ℕ) × IsKept r count times.now answered.now }
    ensures spans { IfOk result (λ spans. (r : Recording) (count : ℕ) → IsKept r count times.now answered.now
        → AreSpans r count spans) }
{
    let Ok(mut lines) = Vec::with_capacity(alloc, times.lines.len()) else {
        return Err(NoMemory);
    };
    let mut unfit = None;
    for conn in 0..times.lines.len() {
        let found = walk_sessions(alloc, &times.lines[conn], answered.of(conn))?;
        let Walk {
            spans,
            unfit: other,
        } = found;
        unfit = earlier(unfit, other);
        lines.push_reserved(spans);
    }
    Ok(Spans { lines, unfit })
}

impl Spans {
    // Returns the number of commands, and of those that some mark ends.
    pub(crate) fn numbers(&self) -> Result<Timing, NoMemory>
        ensures value { IfOk result (λ timing. (r : Recording) (count : ℕ) → AreSpans r count self.now
            → HasNumbers r count timing) }
    {
        let mut commands = 0u64;
        let mut ended = 0u64;
        for conn in 0..self.lines.len() {
            let Some(more) = commands.checked_add(self.lines[conn].len() as u64) else {
                return Err(NoMemory);
            };
            commands = more;
            let Some(more) = ended.checked_add(ended_in(&self.lines[conn])) else {
                return Err(NoMemory);
            };
            ended = more;
        }
        Ok(Timing::InTime { commands, ended })
    }
}

// Counts the commands that have an end.
fn ended_in(spans: &Vec<Span>) -> u64
    ensures value { result ≡ trues (map has_end spans.now.items) }
{
    let mut ended = 0u64;
    for at in 0..spans.len() {
        if spans[at].end.is_some() {
            ended += 1;
        }
    }
    ended
}
