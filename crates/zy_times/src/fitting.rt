//! Checking whether marks fit.
ghost use Rattle.std.specs.Prelude.{◌≡◌, ℕ, List, length};
ghost use Rattle.zy_capture.specs.declared.record.Record.{Record};
ghost use Rattle.zy_times.specs.Sessions.{MarksFitIn};
ghost use Rattle.zy_times.specs.Line.{SessionHolds};
ghost use Rattle.zy_times.specs.Fitting.{IsUnfitAt, earlier_of};

use crate::moments::{moment_at, number_if};
use crate::session::Session;

// Returns the earlier of two moments, if there are any.
pub(crate) fn earlier(found: Option<u32>, other: Option<u32>) -> Option<u32>
    ensures value { result ≡ earlier_of found other }
{
    match (found, other) {
        (Some(moment), Some(next)) => Some(moment.min(next)),
        (Some(moment), None) => Some(moment),
        (None, next) => next,
    }
}

// Returns the first moment at which the marks of a session do not fit, if there is one.
pub(crate) fn first_unfit(session: &Session, answered: &[bool]) -> Option<u32>
    requires size { length answered.now ≡ length session.now.sent.items }
    ensures found { (records : List Record) (conn number : ℕ) → SessionHolds records conn number session.now
        → IsUnfitAt (length records) (MarksFitIn records conn number answered.now) result }
{
    let mut ended = 0;
    for index in 0..answered.len() {
        let Some(moment) = moment_at(&session.marks, ended) else {
            return None;
        };
        if answered[index] && moment < session.sent[index] {
            return Some(moment);
        }
        ended += number_if(answered[index]);
    }
    moment_at(&session.marks, ended)
}
