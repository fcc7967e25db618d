//! Sessions and ends of calls.

use zy_refute::Observed;

/// Checks whether two calls are of one session.
pub fn are_of_one_session(one: &Observed, other: &Observed) -> bool {
    one.name.conn == other.name.conn && one.name.session == other.name.session
}

/// Returns the moment at which a call had ended, or the last of all.
pub fn end_of(one: &Observed) -> u64 {
    one.ended.unwrap_or(u64::MAX)
}
