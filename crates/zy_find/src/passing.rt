//! Making all calls, each at the last moment or when another one needs it.

use crate::before::Before;
use crate::pass::{Failure, Given, Pass, Progress};
use zy_base::NoMemory;
use zy_search::Held;
use zy_sources::end_of;

// How many failures of a pass are noted.
const MOST_FAILURES: usize = 1024;

impl Pass {
    // Makes all sure calls, and those that they need.
    pub(crate) fn run(&mut self, given: Given<'_>) -> Result<(), NoMemory> {
        for call in &given.links.sorted.by_end {
            if let Some(one) = given.get(*call)
                && self.waits(*call)
            {
                self.now = end_of(one);
                self.want(*call)?;
                self.run_wanted(given)?;
            }
        }
        self.run_rest(given)
    }

    // Makes all wanted calls, and those that they need.
    fn run_wanted(&mut self, given: Given<'_>) -> Result<(), NoMemory> {
        for _ in 0..usize::MAX {
            let Some(last) = self.wanted.last().copied() else {
                break;
            };
            self.step(given, last)?;
        }
        Ok(())
    }

    // Makes the calls that need not occur at the end, if their answers are possible then.
    fn run_rest(&mut self, given: Given<'_>) -> Result<(), NoMemory> {
        self.now = u64::MAX;
        for call in &given.links.sorted.by_sent {
            if !self.waits(*call) || !self.is_made(given.before(*call)) {
                continue;
            }
            if let Some(one) = given.get(*call)
                && one.call.key().is_none()
            {
                self.make_keyless(given, *call, one)?;
            } else if let Some(decided) = self.decide(given, *call, true) {
                self.make(given, *call, decided)?;
            }
        }
        Ok(())
    }

    // Notes that a call is to be made as soon as what must come before it is made.
    fn want(&mut self, call: u32) -> Result<(), NoMemory> {
        self.set(call, Progress::Wanted);
        self.wanted.push(call)?;
        Ok(())
    }

    // Makes the last of the wanted calls, or wants another one before it.
    fn step(&mut self, given: Given<'_>, call: u32) -> Result<(), NoMemory> {
        match self.before(given, call)? {
            Before::Call(other) => self.want(other),
            Before::Never => self.give_up(given, call),
            Before::Nothing => match given.get(call) {
                Some(one) if one.call.key().is_none() => {
                    let _ = self.wanted.pop();
                    self.make_keyless(given, call, one)
                }
                _ => self.step_at(given, call),
            },
        }
    }

    // Does the same if nothing is known to come before the call.
    fn step_at(&mut self, given: Given<'_>, call: u32) -> Result<(), NoMemory> {
        if let Some(decided) = self.decide(given, call, false) {
            let _ = self.wanted.pop();
            return self.make(given, call, decided);
        }
        if let Some(helper) = self.helper(given, call)? {
            return self.want(helper);
        }
        if let Some(decided) = self.decide(given, call, true) {
            let _ = self.wanted.pop();
            return self.make(given, call, decided);
        }
        self.give_up(given, call)
    }

    // Notes that a call failed, and makes it as if nothing was known of its key.
    fn give_up(&mut self, given: Given<'_>, call: u32) -> Result<(), NoMemory> {
        let key = given.key_of(call);
        let _ = self.wanted.pop();
        if self.failures.len() < MOST_FAILURES {
            self.failures.push(Failure {
                key,
                call,
                made: self.made.len(),
            })?;
        }
        if let Some(own) = self.keys.get_mut(key as usize) {
            own.hold(Held::Any);
        }
        match self.decide(given, call, true) {
            Some(decided) => self.make(given, call, decided),
            None => self.make_blindly(given, call),
        }
    }
}
