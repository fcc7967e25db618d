//! Offering requests whose time has come.
ghost use Rattle.std.specs.Prelude.{◌<◌, length};

use crate::offering::offer;
use crate::times::Times;
use crate::zeros::zeros;
use std::alloc::Global;
use zy_base::{Blob, NoMemory};
use zy_rx::{Inlet, Rx};

// The most items that a turn receives.
const ITEMS_AT_ONCE: u64 = 64;

/// The requests, and the rings that they are offered to.
#[derive(Drop)]
pub(crate) struct Source {
    alloc: Global,
    inlets: Vec<Inlet>,
    times: Times,
    // By core: the items in its ring.
    waiting: Vec<u64>,
}

impl Source {
    /// Begins with requests of which none was offered to these cores.
    pub(crate) fn new(
        alloc: Global,
        inlets: Vec<Inlet>,
        times: Times,
        cores: u32,
    ) -> Result<Source, NoMemory> {
        match zeros(alloc, u64::from(cores)) {
            Ok(waiting) => Ok(Source {
                alloc,
                inlets,
                times,
                waiting,
            }),
            Err(e) => {
                drop(inlets);
                drop(times);
                Err(e)
            }
        }
    }

    /// Returns when the next request comes, in nanoseconds; the largest number if none is left.
    pub(crate) fn next_due(&self) -> u64 {
        if self.times.is_over() {
            return u64::MAX;
        }
        self.times.due()
    }

    /// Offers the requests that have come, until a ring has no room. Returns how many it offered.
    pub(crate) fn offer_until(&mut self, now: u64) -> Result<u64, NoMemory> {
        for count in 0..u64::MAX {
            if self.next_due() > now || self.times.is_over() {
                return Ok(count);
            }
            if !self.offer_next()? {
                return Ok(count);
            }
        }
        Ok(0)
    }

    // Offers the next request. Returns whether its ring had room.
    fn offer_next(&mut self) -> Result<bool, NoMemory> {
        let next = self.times.next();
        let core = next.core as usize;
        if core >= self.inlets.len() {
            return Err(NoMemory);
        }
        let bytes = match Blob::copy_of(self.alloc, b"get key\r\n") {
            Ok(bytes) => bytes,
            Err(_) => return Err(NoMemory),
        };
        let segment = Rx::Segment {
            conn: next.conn,
            bytes,
        };
        match offer(&mut self.inlets, core, segment) {
            None => {
                self.times.go_on();
                if let Some(waiting) = self.waiting.get_mut(core) {
                    *waiting = waiting.saturating_add(1);
                }
                Ok(true)
            }
            Some(item) => {
                drop(item);
                Ok(false)
            }
        }
    }

    /// Notes that a turn of this core received what was in its ring. Returns the number of items.
    pub(crate) fn receive(&mut self, core: usize) -> u64 {
        match self.waiting.get_mut(core) {
            Some(waiting) => {
                let count = (*waiting).min(ITEMS_AT_ONCE);
                *waiting = waiting.saturating_sub(count);
                count
            }
            None => 0,
        }
    }

    /// Returns the requests.
    pub(crate) fn into_times(self) -> Times {
        let Source {
            alloc: _,
            inlets,
            times,
            waiting,
        } = self;
        drop(inlets);
        drop(waiting);
        times
    }
}
