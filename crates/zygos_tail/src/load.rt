//! A requested load, and the random numbers of its requests.
ghost use Rattle.std.specs.Prelude.{◌≤◌};

use crate::draws::{Draws, exponential, mixed};

/// How service times are distributed.
#[derive(Clone, Copy, PartialEq, Eq)]
pub(crate) enum Shape {
    /// All are the mean.
    Fixed,
    /// An exponential distribution.
    Exponential,
    /// One in ten is ten times as long as the others.
    Bimodal,
    /// They are chosen at random from times that an input gives.
    Given,
}

/// The service times.
#[derive(Clone, Copy)]
pub(crate) struct Service {
    pub(crate) shape: Shape,
    /// The mean, in nanoseconds.
    pub(crate) mean: u64,
}

/// A requested load.
#[derive(Clone, Copy)]
pub(crate) struct Load {
    pub(crate) cores: u32,
    /// Half of the requests are of connections of the first core, or each core has its even part.
    pub(crate) skewed: bool,
    pub(crate) service: Service,
    /// The mean time from one request to the next, in picoseconds.
    pub(crate) gap: u64,
    /// The number of requests.
    pub(crate) count: u64,
    /// The number from which all random numbers are generated.
    pub(crate) number: u64,
}

/// A request: its connection, and the home core of this.
#[derive(Clone, Copy, Drop)]
pub(crate) struct Request {
    pub(crate) core: u32,
    pub(crate) conn: u32,
}

/// The shards of the store.
pub(crate) const SHARDS: u32 = 16;

// The connections of each core.
const EACH: u32 = 64;

// Flow groups are dealt to the cores in turn.
const GROUPS: u32 = 128;

impl Service {
    /// Returns the service time for a random number; the mean if times were to be given and none
    /// was.
    pub(crate) fn time_of(&self, draw: u64) -> u64 {
        match self.shape {
            Shape::Fixed | Shape::Given => self.mean,
            Shape::Exponential => exponential(draw, self.mean),
            Shape::Bimodal => {
                let short = self.mean.wrapping_mul(10) / 19;
                if draw % 10 == 0 {
                    short.wrapping_mul(10)
                } else {
                    short
                }
            }
        }
    }
}

impl Load {
    /// Returns the time from one request to the next, in picoseconds.
    pub(crate) fn gap_of(&self, draw: u64) -> u64 {
        exponential(draw, self.gap)
    }

    /// Returns the random number for the service time of the request with this place.
    pub(crate) fn draw_of(&self, place: usize) -> u64 {
        mixed((place as u64) ^ mixed(self.number))
    }

    /// Returns a request.
    pub(crate) fn request_of(&self, draws: &mut Draws) -> Request {
        let draw = draws.next() >> 8;
        let core = self.core_of(draw);
        let which = (draws.next() >> 8) % u64::from(EACH);
        Request {
            core,
            conn: self.conn_of(core, which as u32),
        }
    }

    // Returns the home core of a request.
    fn core_of(&self, draw: u64) -> u32 {
        let cores = u64::from(self.cores.max(1));
        if self.skewed && cores > 1 {
            if draw % 2 == 0 {
                return 0;
            }
            return (1 + draw / 2 % (cores - 1)) as u32;
        }
        (draw % cores) as u32
    }

    // Returns a connection of this core.
    fn conn_of(&self, core: u32, which: u32) -> u32 {
        let each = (GROUPS / self.cores.max(1)).max(1);
        (which / each)
            .wrapping_mul(GROUPS)
            .wrapping_add((which % each).wrapping_mul(self.cores))
            .wrapping_add(core)
    }

    /// Returns the number of connections; some may have no request.
    pub(crate) fn connections(&self) -> u32
        ensures few { result ≤ 4096 }
    {
        self.conn_of(self.cores, EACH - 1).min(4096)
    }

    /// Returns the home core of a connection.
    pub(crate) fn home_of(&self, conn: u32) -> u32 {
        conn % GROUPS % self.cores.max(1)
    }

    /// Returns the number of places of all requests.
    pub(crate) fn places(&self) -> u64 {
        u64::from(self.connections()).saturating_mul(self.room())
    }

    // Returns the number of places for a connection's requests, which is more than any connection
    // has.
    fn room(&self) -> u64 {
        let cores = u64::from(self.cores.max(1));
        let part = if self.skewed { cores.min(2) } else { cores };
        let mean = self.count / part.max(1) / u64::from(EACH);
        mean.saturating_add(mean / 4).saturating_add(200)
    }

    /// Returns the place of a connection's request, by its index. Places beyond the last are none.
    pub(crate) fn place_of(&self, conn: u32, index: u64) -> usize {
        if index >= self.room() {
            return usize::MAX;
        }
        u64::from(conn)
            .wrapping_mul(self.room())
            .wrapping_add(index) as usize
    }
}
