//! The commands and marks of one connection, session by session.
ghost use Rattle.std.specs.Prelude.{◌≡◌, ℕ, length, IfOk};
ghost use Rattle.zy_run.specs.Commands.{commands_in};
ghost use Rattle.zy_times.specs.Recording.{Recording};
ghost use Rattle.zy_times.specs.Recorded.{flags_in};
ghost use Rattle.zy_times.specs.Line.{LineHolds};
ghost use Rattle.zy_times.specs.Fitting.{FoundUnfit};
ghost use Rattle.zy_times.specs.Spans.{AreSpansBelow};

use crate::ending::add_spans;
use crate::fitting::{earlier, first_unfit};
use crate::line::Line;
use crate::span::Span;
use std::alloc::Global;
use zy_base::NoMemory;

/// The spans of a connection's commands, and the first moment at which its marks do not fit, if
/// there is one.
#[derive(Drop)]
pub(crate) struct Walk {
    pub(crate) spans: Vec<Span>,
    pub(crate) unfit: Option<u32>,
}

// Goes once through the commands and marks of a connection.
pub(crate) fn walk_sessions(alloc: Global, line: &Line, answered: &[bool]) -> Result<Walk, NoMemory>
    requires holds { (r : Recording) × (conn : ℕ) × LineHolds r.records conn line.now
        × (answered.now ≡ flags_in r conn) }
    ensures spans { IfOk result (λ walk. (r : Recording) (conn : ℕ) → LineHolds r.records conn line.now
        → answered.now ≡ flags_in r conn
        → AreSpansBelow r conn (length (commands_in r.records conn)) walk.spans.items) }
    ensures unfit { IfOk result (λ walk. (r : Recording) (conn : ℕ) → LineHolds r.records conn line.now
        → answered.now ≡ flags_in r conn → FoundUnfit r conn walk.unfit) }
{
    let Ok(mut spans) = Vec::with_capacity(alloc, answered.len()) else {
        return Err(NoMemory);
    };
    let mut unfit = None;
    let mut first = 0;
    for at in 0..line.sessions.len() {
        let session = &line.sessions[at];
        let next = first + session.sent.len();
        let own = &answered[first..next];
        unfit = earlier(unfit, first_unfit(session, own));
        add_spans(session, own, &mut spans)?;
        first = next;
    }
    Ok(Walk { spans, unfit })
}
