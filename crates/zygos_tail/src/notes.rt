//! What is noted of each request, by its place: when its command ended, and on which core.
use crate::load::Load;
use crate::zeros::zeros;
use std::alloc::Global;
use std::sync::atomic::{AtomicU64, Ordering};
use zy_base::NoMemory;

/// The service times of requests, and what is noted of their commands.
#[derive(Drop)]
pub(crate) struct Notes {
    load: Load,
    services: Vec<u64>,
    ends: Vec<End>,
}

// When a command ended, in nanoseconds, and the core that executed it.
#[derive(Default, Drop)]
struct End {
    time: AtomicU64,
    core: AtomicU64,
}

impl Notes {
    /// Begins with nothing noted, and with these service times.
    pub(crate) fn new(alloc: Global, load: Load, services: Vec<u64>) -> Result<Notes, NoMemory> {
        match zeros(alloc, load.places()) {
            Ok(ends) => Ok(Notes {
                load,
                services,
                ends,
            }),
            Err(e) => {
                drop(services);
                Err(e)
            }
        }
    }

    /// Returns the service time of the command at this place: one of those that were given, if
    /// there are any.
    pub(crate) fn service_of(&self, place: usize) -> u64 {
        let draw = self.load.draw_of(place);
        let given = (self.services.len() as u64).max(1);
        match self.services.get((draw % given) as usize) {
            Some(time) => *time,
            None => self.load.service.time_of(draw),
        }
    }

    /// Notes that the command at this place ended at this time on this core.
    pub(crate) fn note(&self, place: usize, core: u64, end: u64) {
        if let Some(slot) = self.ends.get(place) {
            slot.time.store(end, Ordering::SeqCst);
            slot.core.store(core, Ordering::SeqCst);
        }
    }

    /// Returns when the command at this place ended, in nanoseconds; 0 if it did not.
    pub(crate) fn end(&self, place: usize) -> u64 {
        match self.ends.get(place) {
            Some(end) => end.time.load(Ordering::SeqCst),
            None => 0,
        }
    }

    /// Returns the core that executed the command at this place; 0 if there is none.
    pub(crate) fn core(&self, place: usize) -> u64 {
        match self.ends.get(place) {
            Some(end) => end.core.load(Ordering::SeqCst),
            None => 0,
        }
    }
}
