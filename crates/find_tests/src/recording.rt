//! Small recordings of calls at one key.
use mc_allows::{CallName, Shown};
use mc_calls::{Call, CallReply};
use std::alloc::Global;
use std::collections::BTreeSet;
use zy_base::{Blob, NoMemory};
use zy_find::{Found, Rules, find};
use zy_refute::Observed;
use zy_verdict::{Order, Placement};

/// What a call does, and what its answer shows.
#[derive(Clone, Copy)]
pub(crate) enum Did {
    /// A get that found this value.
    Got(u8),
    /// A get that found nothing.
    Missed,
    /// A set of this value.
    Set(u8),
    /// An add of this value that was refused.
    NotAdded(u8),
    /// A deletion of an item.
    Deleted,
    /// An append of this value.
    Appended(u8),
    /// An append of this value that failed.
    Failed(u8),
    /// An add of this value without an answer.
    SilentlyAdded(u8),
    /// A replace by this value without an answer.
    SilentlyReplaced(u8),
    /// An append of this value without an answer.
    SilentlyAppended(u8),
    /// An addition of this number without an answer.
    SilentlyCounted(u64),
}

/// A call of a connection: what it does, and the moments of its sending and its end.
#[derive(Clone, Copy)]
pub(crate) struct Recorded {
    pub(crate) conn: u32,
    pub(crate) did: Did,
    pub(crate) sent: u64,
    pub(crate) ended: u64,
}

fn byte(alloc: Global, byte: u8) -> Result<Blob, NoMemory> {
    Blob::copy_of(alloc, &[byte])
}

fn call_of(alloc: Global, did: Did) -> Result<Call, NoMemory> {
    let key = byte(alloc, b'k')?;
    match did {
        Did::Got(_) | Did::Missed => Ok(Call::Get { key }),
        Did::Deleted => Ok(Call::Delete { key }),
        Did::Set(value) => match byte(alloc, value) {
            Ok(value) => Ok(Call::Set {
                key,
                flags: 0,
                value,
            }),
            Err(refused) => {
                drop(key);
                Err(refused)
            }
        },
        Did::NotAdded(value) | Did::SilentlyAdded(value) => match byte(alloc, value) {
            Ok(value) => Ok(Call::Add {
                key,
                flags: 0,
                value,
            }),
            Err(refused) => {
                drop(key);
                Err(refused)
            }
        },
        Did::SilentlyCounted(amount) => Ok(Call::Incr { key, amount }),
        Did::SilentlyReplaced(value) => match byte(alloc, value) {
            Ok(value) => Ok(Call::Replace {
                key,
                flags: 0,
                value,
            }),
            Err(refused) => {
                drop(key);
                Err(refused)
            }
        },
        Did::Appended(value) | Did::Failed(value) | Did::SilentlyAppended(value) => match byte(
            alloc, value,
        ) {
            Ok(value) => Ok(Call::Append { key, value }),
            Err(refused) => {
                drop(key);
                Err(refused)
            }
        },
    }
}

fn shown_of(alloc: Global, did: Did) -> Result<Shown, NoMemory> {
    let reply = match did {
        Did::Got(value) => CallReply::Hit {
            flags: 0,
            unique: 0,
            value: byte(alloc, value)?,
        },
        Did::Missed => CallReply::Miss,
        Did::Set(_) | Did::Appended(_) => CallReply::Stored,
        Did::Failed(_) => return Ok(Shown::Failure),
        Did::SilentlyAdded(_)
        | Did::SilentlyReplaced(_)
        | Did::SilentlyAppended(_)
        | Did::SilentlyCounted(_) => return Ok(Shown::NoFailure),
        Did::NotAdded(_) => CallReply::NotStored,
        Did::Deleted => CallReply::Deleted,
    };
    Ok(Shown::Reply { reply })
}

fn observed(alloc: Global, recorded: Recorded) -> Result<Observed, NoMemory> {
    let call = call_of(alloc, recorded.did)?;
    match shown_of(alloc, recorded.did) {
        Ok(shown) => Ok(Observed {
            name: CallName {
                index: 0,
                session: 0,
                conn: recorded.conn,
                part: 0,
            },
            shard: 0,
            call,
            shown,
            unique: None,
            sure: true,
            sent: recorded.sent,
            ended: Some(recorded.ended),
        }),
        Err(refused) => {
            drop(call);
            Err(refused)
        }
    }
}

fn conn_of(placement: &Placement) -> u32 {
    placement.name.conn
}

/// Returns the connections of the calls in the order that is found; none if none is. If `warm`, the key may
/// have an item at first.
pub(crate) fn found_in(
    alloc: Global,
    warm: bool,
    recorded: &[Recorded],
) -> Result<Option<Vec<u32>>, NoMemory> {
    let rules = Rules {
        warm,
        forget: false,
        begun: None,
    };
    let Some(order) = found_by(alloc, rules, recorded)? else {
        return Ok(None);
    };
    let mut conns = Vec::new(alloc);
    for placement in order.items() {
        conns.push(conn_of(placement))?;
    }
    drop(order);
    Ok(Some(conns))
}

/// Returns the order that is found; none if none is.
pub(crate) fn found_by(
    alloc: Global,
    rules: Rules<'_>,
    recorded: &[Recorded],
) -> Result<Option<Order>, NoMemory> {
    let mut calls = Vec::new(alloc);
    for one in recorded {
        calls.push(observed(alloc, *one)?)?;
    }
    let lasting = BTreeSet::new(alloc);
    let found = find(alloc, rules, &lasting, &calls, 64);
    drop(lasting);
    drop(calls);
    match found? {
        Found::Nothing { calls } => {
            drop(calls);
            Ok(None)
        }
        Found::Ordered { order, began } => {
            drop(began);
            Ok(Some(order))
        }
    }
}
