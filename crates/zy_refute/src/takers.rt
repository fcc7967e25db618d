//! Sure calls that need a fact and take it away.

use crate::observed::Observed;
use crate::sources::leaves_not;
use mc_allows::{Fact, need_of};
use std::alloc::Global;
use zy_base::NoMemory;

/// What a call takes away.
#[derive(Clone, Copy, PartialEq, Eq, PartialOrd, Ord)]
pub(crate) enum Taken {
    /// That there is no item.
    Absence,
    /// That there is an item.
    Presence,
    /// That its value is this number.
    Number(u64),
}

impl Taken {
    /// Returns what is taken away, as a fact.
    pub(crate) fn fact(self) -> Fact {
        match self {
            Taken::Absence => Fact::Absent,
            Taken::Presence => Fact::Present,
            Taken::Number(number) => Fact::Number { number },
        }
    }
}

/// A sure call that needs a fact and takes it away: the fact, when the call had ended, and the call's
/// place in a list.
#[derive(Clone, Copy, PartialEq, Eq, PartialOrd, Ord)]
pub(crate) struct Taker {
    pub(crate) taken: Taken,
    pub(crate) ended: u64,
    pub(crate) at: usize,
}

/// Returns all sure calls that need a fact and take it away. Those of one fact stand together, in the
/// order in which they ended.
pub(crate) fn takers_of(alloc: Global, calls: &[Observed]) -> Result<Vec<Taker>, NoMemory> {
    let mut takers = Vec::new(alloc);
    for at in 0..calls.len() {
        if let Some(taken) = taken_by(&calls[at])? {
            let ended = calls[at].ended.unwrap_or(u64::MAX);
            takers.push(Taker { taken, ended, at })?;
        }
    }
    takers.sort()?;
    Ok(takers)
}

// Returns what a sure call needs and takes away, if it does.
fn taken_by(call: &Observed) -> Result<Option<Taken>, NoMemory> {
    if !call.sure {
        return Ok(None);
    }
    let need = need_of(&call.call, &call.shown)?;
    let taken = match &need {
        Fact::Absent => Some(Taken::Absence),
        Fact::Present => Some(Taken::Presence),
        Fact::Number { number } => Some(Taken::Number(*number)),
        _ => None,
    };
    let leaves = leaves_not(call, &need);
    drop(need);
    if leaves? { Ok(taken) } else { Ok(None) }
}
