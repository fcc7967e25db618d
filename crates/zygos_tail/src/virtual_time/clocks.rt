//! The clocks of the cores.
use std::alloc::Global;
use zy_base::NoMemory;

/// How long an idle core waits before it looks again, in nanoseconds.
#[derive(Clone, Copy)]
pub(crate) struct Waits {
    /// A pause of a spin.
    pub(crate) pause: u64,
    /// A yield.
    pub(crate) yielding: u64,
}

impl Waits {
    // Returns the wait after this number of idle turns in a row: 16 looks at once, four spins, and
    // then yields, as a thread of `zy_drive` has them.
    fn after(&self, idle: u64) -> u64 {
        match idle {
            0..=16 => 0,
            17 => self.pause.saturating_mul(64),
            18 => self.pause.saturating_mul(128),
            19 => self.pause.saturating_mul(256),
            20 => self.pause.saturating_mul(512),
            _ => self.yielding,
        }
    }
}

// After this number of idle turns all waits are the same.
const PATIENCE: u64 = 20;

// The clock of a core: its time, the idle turns in a row, and how much had changed before the last of these.
#[derive(Clone, Copy, Drop)]
struct Clock {
    now: u64,
    idle: u64,
    seen: u64,
}

/// The clocks of all cores, and how often something changed that a core may find.
#[derive(Drop)]
pub(crate) struct Clocks {
    items: Vec<Clock>,
    changes: u64,
    waits: Waits,
    // What an idle turn costs.
    look: u64,
}

impl Clocks {
    /// Makes the clocks of cores that begin at 0; an idle turn costs `look` nanoseconds.
    pub(crate) fn new(
        alloc: Global,
        cores: u32,
        waits: Waits,
        look: u64,
    ) -> Result<Clocks, NoMemory> {
        let mut items = Vec::new(alloc);
        match add_clocks(&mut items, cores) {
            Ok(()) => Ok(Clocks {
                items,
                changes: 0,
                waits,
                look,
            }),
            Err(e) => {
                drop(items);
                Err(e)
            }
        }
    }

    /// Returns the core with the least clock, the lowest one of several.
    pub(crate) fn least(&self) -> usize {
        let mut least = 0;
        let mut now = u64::MAX;
        for core in 0..self.items.len() {
            let clock = &self.items[core];
            if clock.now < now {
                now = clock.now;
                least = core;
            }
        }
        least
    }

    /// Returns the time of a core.
    pub(crate) fn now(&self, core: usize) -> u64 {
        match self.items.get(core) {
            Some(clock) => clock.now,
            None => 0,
        }
    }

    /// Notes that something changed that a core may find.
    pub(crate) fn change(&mut self) {
        self.changes = self.changes.saturating_add(1);
    }

    /// Notes that a turn of this core worked until this time.
    pub(crate) fn work(&mut self, core: usize, until: u64) {
        self.change();
        if let Some(clock) = self.items.get_mut(core) {
            clock.now = until;
            clock.idle = 0;
        }
    }

    /// Notes that a turn of this core found nothing.
    pub(crate) fn look_on(&mut self, core: usize) {
        let seen = self.changes;
        if let Some(clock) = self.items.get_mut(core) {
            clock.look_on(self.look, self.waits);
            clock.seen = seen;
        }
    }

    /// Checks whether this core found nothing in its last turn, and nothing has changed since.
    pub(crate) fn is_idle(&self, core: usize) -> bool {
        match self.items.get(core) {
            Some(clock) => clock.is_idle(self.changes),
            None => false,
        }
    }

    /// Returns the least clock of the cores that are not idle; the largest number if all are.
    pub(crate) fn least_busy(&self) -> u64 {
        let mut least = u64::MAX;
        for clock in &self.items {
            if !clock.is_idle(self.changes) {
                least = least.min(clock.now);
            }
        }
        least
    }

    /// Lets the idle core look on, and find nothing, until its clock is at this time or after it.
    pub(crate) fn wait(&mut self, core: usize, until: u64) {
        if let Some(clock) = self.items.get_mut(core) {
            clock.wait(self.look, self.waits, until);
        }
    }
}

impl Clock {
    fn is_idle(&self, changes: u64) -> bool {
        self.idle > 0 && self.seen == changes
    }

    // Takes an idle turn, and waits.
    fn look_on(&mut self, look: u64, waits: Waits) {
        self.idle = self.idle.saturating_add(1);
        let wait = look.saturating_add(waits.after(self.idle));
        self.now = self.now.saturating_add(wait.max(1));
    }

    // Takes idle turns until this time.
    fn wait(&mut self, look: u64, waits: Waits, until: u64) {
        for _ in 0..PATIENCE {
            if self.now < until {
                self.look_on(look, waits);
            }
        }
        if self.now < until {
            let step = look.saturating_add(waits.yielding).max(1);
            let turns = ((until - self.now) / step).saturating_add(1);
            self.now = self.now.saturating_add(step.saturating_mul(turns));
        }
    }
}

// Appends the clocks of this number of cores.
fn add_clocks(items: &mut Vec<Clock>, cores: u32) -> Result<(), NoMemory> {
    for _ in 0..cores {
        items.push(Clock {
            now: 0,
            idle: 0,
            seen: 0,
        })?;
    }
    Ok(())
}
