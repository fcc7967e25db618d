//! When the commands of a session were sent and had ended.
ghost use Rattle.std.specs.Prelude.{◌≡◌, ◌+◌, ℕ, length, OnOk};
ghost use Rattle.zy_times.specs.Recording.{Recording, answered_in, first_in};
ghost use Rattle.zy_times.specs.Line.{SessionHolds};
ghost use Rattle.zy_times.specs.Spans.{AreSpansBelow};

use crate::moments::{moment_at, number_if};
use crate::session::Session;
use crate::span::Span;
use zy_base::NoMemory;

// Appends the spans of a session's commands.
pub(crate) fn add_spans(
    session: &Session,
    answered: &[bool],
    spans: &mut Vec<Span>,
) -> Result<(), NoMemory>
    requires size { length answered.now ≡ length session.now.sent.items }
    ensures more { OnOk result ((r : Recording) (conn number : ℕ) → SessionHolds r.records conn number session.now
        → answered.now ≡ answered_in r conn number → AreSpansBelow r conn (first_in r conn number) spans.old.items
        → AreSpansBelow r conn (first_in r conn number + length answered.now) spans.new.items) }
{
    let mut ended = 0;
    for index in 0..answered.len() {
        spans.push(Span {
            sent: session.sent[index],
            end: moment_at(&session.marks, ended),
        })?;
        ended += number_if(answered[index]);
    }
    Ok(())
}
