//! The times at which requests are due.
use crate::draws::Draws;
use crate::load::{Load, Request};
use crate::zeros::zeros;
use std::alloc::Global;
use zy_base::NoMemory;

/// The requests of a load: the next one and when it is due, and when those before it were.
#[derive(Drop)]
pub(crate) struct Times {
    load: Load,
    draws: Draws,
    next: Request,
    // When the run began, in nanoseconds.
    begin: u64,
    // The picoseconds from then until the next request is due.
    due: u64,
    left: u64,
    // For how long the feeder was interrupted, in nanoseconds.
    away: u64,
    // By connection: the number of its requests.
    counts: Vec<u64>,
    // By place: when the request was due, in nanoseconds.
    dues: Vec<u64>,
}

impl Times {
    /// Makes the requests of a load that begins now.
    pub(crate) fn new(alloc: Global, load: Load) -> Result<Times, NoMemory> {
        let counts = zeros(alloc, u64::from(load.connections()))?;
        let dues = match zeros(alloc, load.places()) {
            Ok(dues) => dues,
            Err(e) => {
                drop(counts);
                return Err(e);
            }
        };
        let mut draws = Draws::new(load.number);
        let next = load.request_of(&mut draws);
        let due = load.gap_of(draws.next());
        Ok(Times {
            load,
            draws,
            next,
            begin: 0,
            due,
            left: load.count,
            away: 0,
            counts,
            dues,
        })
    }

    /// Lets the requests begin at this time.
    pub(crate) fn begin(&mut self, now: u64) {
        self.begin = now;
    }

    /// Checks whether all were offered.
    pub(crate) fn is_over(&self) -> bool {
        self.left == 0
    }

    /// Returns the next request.
    pub(crate) fn next(&self) -> Request {
        self.next
    }

    /// Returns when the next request is due, in nanoseconds.
    pub(crate) fn due(&self) -> u64 {
        self.begin.saturating_add(self.due / 1_000)
    }

    /// Goes on after the next request was offered: generates the one after it.
    pub(crate) fn go_on(&mut self) {
        let due = self.due();
        let conn = self.next.conn;
        if let Some(count) = self.counts.get_mut(conn as usize) {
            let place = self.load.place_of(conn, *count);
            *count = count.saturating_add(1);
            if let Some(slot) = self.dues.get_mut(place) {
                *slot = due;
            }
        }
        self.next = self.load.request_of(&mut self.draws);
        let gap = self.load.gap_of(self.draws.next());
        self.due = self.due.saturating_add(gap);
        self.left = self.left.saturating_sub(1);
    }

    /// Returns the number of requests of a connection.
    pub(crate) fn count(&self, conn: u32) -> u64 {
        read(&self.counts, conn as usize)
    }

    /// Returns when the request at this place was due; 0 if there is none.
    pub(crate) fn due_at(&self, place: usize) -> u64 {
        read(&self.dues, place)
    }

    /// Adds the nanoseconds for which the feeder was interrupted.
    pub(crate) fn add_away(&mut self, nanos: u64) {
        self.away = self.away.saturating_add(nanos);
    }

    /// Returns for how long the feeder was interrupted, in nanoseconds.
    pub(crate) fn away(&self) -> u64 {
        self.away
    }

    /// Returns when the run began.
    pub(crate) fn begun(&self) -> u64 {
        self.begin
    }
}

// Reads the number at a place, and 0 if there is none.
fn read(numbers: &[u64], place: usize) -> u64 {
    match numbers.get(place) {
        Some(number) => *number,
        None => 0,
    }
}
