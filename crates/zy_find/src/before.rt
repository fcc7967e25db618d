//! What must be made before a call.

use crate::helping::MOST_WAITING;
use crate::pass::{Given, Pass};
use mc_calls::Call;
use zy_base::NoMemory;
use zy_refute::Observed;
use zy_sources::{NONE, at, changes, small};

/// What must be made before a call.
#[derive(Clone, Copy)]
pub(crate) enum Before {
    /// This call.
    Call(u32),
    /// A call that cannot be made now.
    Never,
    /// Nothing.
    Nothing,
}

impl Pass {
    // Finds what must be made before a call.
    pub(crate) fn before(&self, given: Given<'_>, call: u32) -> Result<Before, NoMemory> {
        let earlier = given.before(call);
        if !self.is_made(earlier) {
            return Ok(self.must(given, earlier));
        }
        let Some(one) = given.get(call) else {
            return Ok(Before::Nothing);
        };
        let source = given.source_of(call);
        if !self.is_made(source) {
            return Ok(self.must(given, source));
        }
        let learned = given.learned.before(call);
        if !self.is_made(learned) {
            let must = self.must(given, learned);
            if one.call.key().is_some() || matches!(must, Before::Call(_)) {
                return Ok(must);
            }
        }
        let key = given.key_of(call);
        if key == NONE {
            return self.before_keyless(given, call, one);
        }
        if !changes(one) || (self.is_unseen(given, call, one) && self.is_idle(given, call, one)) {
            return Ok(Before::Nothing);
        }
        if let Some(hidden) = self.hidden(given, call) {
            return Ok(self.must(given, hidden));
        }
        if let Some(reader) = self.reader(given, key, call)? {
            return Ok(Before::Call(reader));
        }
        if learned != NONE {
            return Ok(Before::Nothing);
        }
        Ok(match self.earlier_change(given, key, call)? {
            Some(change) => Before::Call(change),
            None => Before::Nothing,
        })
    }

    // Finds a change that waits and must be made before another one.
    fn hidden(&self, given: Given<'_>, call: u32) -> Option<u32> {
        let mut change = at(given.links.makers.overs.over.as_slice(), call);
        for _ in 0..MOST_WAITING {
            if change == NONE {
                break;
            }
            if !self.is_made(change) {
                return Some(change);
            }
            change = at(given.links.makers.overs.more_over.as_slice(), change);
        }
        None
    }

    // Returns a call that must be made before another one, as far as it can be made now.
    fn must(&self, given: Given<'_>, call: u32) -> Before {
        if self.waits(call) && self.is_sent(given, call) {
            Before::Call(call)
        } else {
            Before::Never
        }
    }

    // Finds what must be made before a call that is about no key.
    fn before_keyless(
        &self,
        given: Given<'_>,
        call: u32,
        one: &Observed,
    ) -> Result<Before, NoMemory> {
        if !matches!(one.call, Call::Flush) {
            return Ok(Before::Nothing);
        }
        for key in 0..self.keys.len() {
            let own = &self.keys[key];
            if own.shard != one.shard {
                continue;
            }
            if let Some(reader) = self.reader(given, small(key), call)? {
                return Ok(Before::Call(reader));
            }
        }
        Ok(Before::Nothing)
    }
}
