//! What a call does at a key, if what its answer shows can be so.

use crate::counting::{Count, counted};
use crate::decided::{Change, Decided, if_so};
use crate::getting::got;
use crate::held::Sight;
use crate::storing::{added, deleted, exchanged, joined, replaced};
use crate::words::{Word, says};
use mc_allows::Shown;
use mc_calls::Call;
use zy_refute::Observed;
use zy_verdict::Choice;

/// Returns what a call does at a key that has this; none if what its answer shows cannot be so. The item
/// may be lost before the call if `may_lose` and `forget`, and may be gone since a call that failed if
/// `may_lose`.
pub fn decide(sight: Sight<'_>, one: &Observed, may_lose: bool, forget: bool) -> Option<Decided> {
    let kept = decide_after(sight, one);
    if kept.is_some() || !may_lose {
        return kept;
    }
    let doubt = match sight {
        Sight::Item(known) => known.doubt,
        _ => None,
    };
    if doubt.is_none() && !forget {
        return None;
    }
    match decide_after(Sight::Nothing, one) {
        Some(decided) => Some(Decided {
            gone: doubt,
            lost: doubt.is_none(),
            ..decided
        }),
        None => None,
    }
}

/// Returns what a call does at a key that has this, if nothing is lost before it.
pub fn decide_after(sight: Sight<'_>, one: &Observed) -> Option<Decided> {
    if let Shown::Failure = one.shown {
        return Some(Decided::chosen(Change::Doubts, Choice::Failed));
    }
    match &one.call {
        Call::Get { .. } => got(sight, one),
        Call::Set { .. } => if_so(says(&one.shown, Word::Stored), Change::Stores),
        Call::Add { .. } => added(sight, &one.shown),
        Call::Replace { .. } => replaced(sight, &one.shown),
        Call::Append { value, .. } | Call::Prepend { value, .. } => {
            joined(sight, &one.shown, value.bytes().len())
        }
        Call::Cas { unique, .. } => exchanged(sight, &one.shown, *unique),
        Call::Incr { amount, .. } => counted(sight, &one.shown, Count::Up(*amount)),
        Call::Decr { amount, .. } => counted(sight, &one.shown, Count::Down(*amount)),
        Call::Delete { .. } => deleted(sight, &one.shown),
        Call::Flush => Some(Decided::plain(Change::Clears)),
        Call::Tally => Some(Decided::plain(Change::Keeps)),
    }
}
