//! Changes that make an answer right.

use crate::pass::{Given, Pass};
use zy_base::NoMemory;
use zy_refute::Observed;
use zy_search::{Sight, decide_after, held_after};
use zy_sources::changes;

/// How many calls that wait at a key are looked at for one that comes before another.
pub(crate) const MOST_WAITING: usize = 1024;

impl Pass {
    // Finds a change that waits, can be made now, and makes the answer of a call possible.
    pub(crate) fn helper(&self, given: Given<'_>, call: u32) -> Result<Option<u32>, NoMemory> {
        let key = given.key_of(call);
        let (Some(own), Some(wanting)) = (self.keys.get(key as usize), given.get(call)) else {
            return Ok(None);
        };
        let mut best = None;
        let mut least = u64::MAX;
        let mut other = own.head;
        for _ in 0..MOST_WAITING {
            let Some(one) = given.get(other) else {
                break;
            };
            if self.now <= one.sent {
                break;
            }
            let due = given.calls().due(other);
            if changes(one)
                && self.may_precede(given, other, call)
                && (best.is_none() || due < least)
                && self.helps(given, other, wanting)?
            {
                best = Some(other);
                least = due;
            }
            other = self.after(other);
        }
        if best.is_none() {
            best = self.helping_flush(given, call, own.shard, wanting);
        }
        Ok(best)
    }

    // Checks whether a change can be made now, and makes the answer of a call possible.
    pub(crate) fn helps(
        &self,
        given: Given<'_>,
        change: u32,
        one: &Observed,
    ) -> Result<bool, NoMemory> {
        let key = given.key_of(change);
        let (Some(own), Some(first)) = (self.keys.get(key as usize), given.get(change)) else {
            return Ok(false);
        };
        let Some(decided) = self.decide(given, change, false) else {
            return Ok(false);
        };
        let place = self.order.len();
        let after = held_after(self.alloc, own.held.sight(), first, decided, place)?;
        let sight = match &after {
            Some(held) => held.sight(),
            None => own.held.sight(),
        };
        let fits = decide_after(sight, one).is_some();
        drop(after);
        Ok(fits)
    }

    // Finds a flush that waits and makes the answer of a call possible.
    fn helping_flush(
        &self,
        given: Given<'_>,
        call: u32,
        shard: u32,
        one: &Observed,
    ) -> Option<u32> {
        if decide_after(Sight::Nothing, one).is_none() {
            return None;
        }
        let flushes = given.links.sorted.flushes.as_slice();
        for offset in self.flushed..flushes.len() {
            let flush = flushes[offset];
            let Some(other) = given.get(flush) else {
                continue;
            };
            if self.now <= other.sent {
                break;
            }
            if other.shard == shard && self.may_precede(given, flush, call) {
                return Some(flush);
            }
        }
        None
    }
}
