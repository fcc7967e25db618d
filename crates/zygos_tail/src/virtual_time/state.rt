//! The state of a run in virtual time, and what each turn of it costs.
use crate::load::Load;
use crate::notes::Notes;
use crate::times::Times;
use crate::virtual_time::Prices;
use crate::virtual_time::clocks::Clocks;
use crate::virtual_time::gate::{Passed, TurnGate};
use crate::virtual_time::parts::Parts;
use crate::virtual_time::source::Source;
use crate::zeros::zeros;
use std::alloc::Global;
use zy_base::NoMemory;
use zy_rx::Inlet;
use zy_steal::Looks;

/// A run: its requests, what its cores have, and what its turns did.
#[derive(Drop)]
pub(crate) struct Run<'a> {
    load: Load,
    notes: &'a Notes,
    prices: Prices,
    source: Source,
    cores: CoreStates,
    // The core that made the last call; all calls are of one shard.
    last: usize,
    done: Parts,
    samples: Vec<Sample>,
}

/// What a turn did, and the time that it took on this machine, in nanoseconds.
#[derive(Clone, Copy, Drop)]
struct Sample {
    parts: Parts,
    nanos: u64,
}

/// What is next.
#[derive(Clone, Copy, Drop)]
pub(crate) enum Next {
    /// A turn of this core.
    Turn(usize),
    /// An idle core has looked on.
    Waited,
    /// All requests were executed.
    Over,
}

/// What is left of a run: its requests, what its turns did, and the turns that were measured.
#[derive(Drop)]
pub(crate) struct Served {
    times: Times,
    done: Parts,
    samples: Vec<Sample>,
}

impl<'a> Run<'a> {
    /// Makes a run that begins.
    pub(crate) fn new(
        alloc: Global,
        load: Load,
        notes: &'a Notes,
        inlets: Vec<Inlet>,
        times: Times,
        prices: Prices,
    ) -> Result<Run<'a>, NoMemory> {
        let look = Parts {
            turns: 1,
            looks: u64::from(load.cores.saturating_sub(1)),
            ..Parts::none()
        };
        let source = Source::new(alloc, inlets, times, load.cores)?;
        match CoreStates::new(alloc, load.cores, prices, look.cost(&prices.parts)) {
            Ok(cores) => Ok(Run {
                load,
                notes,
                prices,
                source,
                cores,
                last: 0,
                done: Parts::none(),
                samples: Vec::new(alloc),
            }),
            Err(e) => {
                drop(source);
                Err(e)
            }
        }
    }

    /// Returns the gate of the turns.
    pub(crate) fn gate(&self) -> &TurnGate {
        &self.cores.gate
    }

    /// Offers the requests that have come at the time of the core with the least clock, and says what is next. An idle
    /// core looks on until the next request comes, or a core that is not idle has its next turn.
    pub(crate) fn next(&mut self) -> Result<Next, NoMemory> {
        let core = self.cores.clocks.least();
        let now = self.cores.clocks.now(core);
        if self.source.offer_until(now)? > 0 {
            self.cores.clocks.change();
        }
        if !self.cores.clocks.is_idle(core) {
            return Ok(Next::Turn(core));
        }
        let until = self.source.next_due().min(self.cores.clocks.least_busy());
        if until == u64::MAX {
            return Ok(Next::Over);
        }
        if until <= now {
            return Ok(Next::Turn(core));
        }
        self.cores.clocks.wait(core, until);
        Ok(Next::Waited)
    }

    /// Advances the clock of this core after a turn, which worked or found nothing.
    pub(crate) fn settle(
        &mut self,
        core: usize,
        worked: bool,
        looks: &Looks,
        nanos: u64,
    ) -> Result<(), NoMemory> {
        let mut parts = self.parts_of(core, looks);
        let begin = self
            .cores
            .clocks
            .now(core)
            .saturating_add(parts.cost(&self.prices.parts));
        let end = self.note_commands(core, begin, &mut parts);
        if worked {
            self.cores.clocks.work(core, end);
            self.done.add(&parts);
        } else {
            self.cores.clocks.look_on(core);
        }
        if (self.samples.len() as u64) < self.prices.samples {
            self.samples.push(Sample { parts, nanos })?;
        }
        Ok(())
    }

    // Returns what a turn of this core did, except for its commands.
    fn parts_of(&mut self, core: usize, looks: &Looks) -> Parts {
        let mut parts = Parts {
            turns: 1,
            items: self.source.receive(core),
            collected: self.collect(core),
            ..Parts::none()
        };
        let home = self.load.home_of(self.cores.gate.passed(0).conn) as usize;
        if self.cores.gate.count() > 0 && home == core {
            parts.holds = 1;
            return parts;
        }
        parts.looks = self.count_looks(looks);
        if self.cores.gate.count() > 0 {
            parts.thefts = 1;
            if let Some(given) = self.cores.given.get_mut(home) {
                *given = given.saturating_add(1);
            }
        }
        parts
    }

    // Notes that the core collected the blocks that thieves gave back. Returns their number.
    fn collect(&mut self, core: usize) -> u64 {
        match self.cores.given.get_mut(core) {
            Some(given) => {
                let count = *given;
                *given = 0;
                count
            }
            None => 0,
        }
    }

    // Returns the number of looks in a table.
    fn count_looks(&self, looks: &Looks) -> u64 {
        let mut count = 0u64;
        for core in 0..self.load.cores {
            if looks.look(core).is_some() {
                count = count.saturating_add(1);
            }
        }
        count
    }

    // Notes when each command of a turn ends, of which the first begins at this time. Returns when the last one ends.
    fn note_commands(&mut self, core: usize, begin: u64, parts: &mut Parts) -> u64 {
        let mut now = begin;
        for at in 0..self.cores.gate.count() {
            let passed = self.cores.gate.passed(at);
            now = self.note_command(core, now, passed, parts);
        }
        now
    }

    // Notes when this command ends, which begins at this time.
    fn note_command(&mut self, core: usize, begin: u64, passed: Passed, parts: &mut Parts) -> u64 {
        let prices = self.prices.parts;
        let mut spent = prices.commands;
        parts.commands = parts.commands.saturating_add(1);
        if self.last != core {
            self.last = core;
            spent = spent.saturating_add(prices.moved);
            parts.moved = parts.moved.saturating_add(1);
        }
        let place = self.load.place_of(passed.conn, passed.index);
        let end = begin
            .saturating_add(spent)
            .saturating_add(self.notes.service_of(place));
        self.notes.note(place, core as u64, end);
        end
    }

    /// Returns what is left of the run.
    pub(crate) fn into_served(self) -> Served {
        let Run {
            load: _,
            notes: _,
            prices: _,
            source,
            cores,
            last: _,
            done,
            samples,
        } = self;
        drop(cores);
        Served {
            times: source.into_times(),
            done,
            samples,
        }
    }
}

// What the cores have: the gate of their turns, their clocks, and by core the blocks that thieves gave back and that it
// has not collected.
#[derive(Drop)]
struct CoreStates {
    gate: TurnGate,
    clocks: Clocks,
    given: Vec<u64>,
}

impl CoreStates {
    fn new(alloc: Global, cores: u32, prices: Prices, look: u64) -> Result<CoreStates, NoMemory> {
        let gate = TurnGate::new(alloc)?;
        let clocks = match Clocks::new(alloc, cores, prices.waits, look) {
            Ok(clocks) => clocks,
            Err(e) => {
                drop(gate);
                return Err(e);
            }
        };
        match zeros(alloc, u64::from(cores)) {
            Ok(given) => Ok(CoreStates {
                gate,
                clocks,
                given,
            }),
            Err(e) => {
                drop(gate);
                drop(clocks);
                Err(e)
            }
        }
    }
}

impl Served {
    /// Returns the requests.
    pub(crate) fn times(&self) -> &Times {
        &self.times
    }

    /// Prints what the turns that worked did, and each turn that was measured.
    pub(crate) fn print<R: Print>(&self, rt: &R) {
        print_parts(rt, "parts", &self.done, self.done.moved);
        for sample in &self.samples {
            print_parts(rt, "turn", &sample.parts, sample.nanos);
        }
    }
}

// Prints what turns did, with a last number.
fn print_parts<R: Print>(rt: &R, what: &str, parts: &Parts, last: u64) {
    let _ = println!(rt;
        "{} {} {} {} {} {} {} {} {}",
        what,
        parts.turns,
        parts.items,
        parts.collected,
        parts.holds,
        parts.thefts,
        parts.commands,
        parts.looks,
        last
    );
}
