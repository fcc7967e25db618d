//! The feeder: it offers requests at the times at which they are due.
ghost use Rattle.std.specs.Prelude.{◌≡◌, ◌<◌, length, ⊤};
ghost use Rattle.zygos_tail.specs.declared.feeder.Stage.TheVariants as Stages;
ghost use Rattle.zygos_tail.specs.Step.{StepSays};

use crate::board::spin;
use crate::clock::monotonic;
use crate::offering::{meet, offer};
use crate::times::Times;
use std::alloc::Global;
use std::time::Clock;
use zy_base::Blob;
use zy_rx::{Fed, Feeder, Inlet, Outlet, Rx};

// Where the feeder is.
#[derive(Clone, Copy, Drop)]
pub(crate) enum Stage {
    // The next request is to be offered.
    Sending,
    // The end is to be offered to this core next.
    Ending(u32),
    // All was offered.
    Ended,
    // An allocation failed.
    Broken,
}

/// Offers each request when it is due, or as soon as its ring has room after that, and then the end
/// to each core.
#[derive(Drop)]
pub(crate) struct Arrivals<'a, R> {
    rt: &'a R,
    alloc: Global,
    inlets: Vec<Inlet>,
    stage: Stage,
    times: Times,
}

impl<'a, R: Clock> Arrivals<'a, R> {
    /// Makes a feeder of these requests.
    pub(crate) fn new(rt: &'a R, alloc: Global, inlets: Vec<Inlet>, times: Times) -> Arrivals<'a, R>
        ensures stage { result.stage ≡ Stages.Sending }
    {
        Arrivals {
            rt,
            alloc,
            inlets,
            stage: Stage::Sending,
            times,
        }
    }

    /// Returns the requests.
    pub(crate) fn into_times(self) -> Times {
        let Arrivals {
            rt: _,
            alloc: _,
            inlets,
            stage: _,
            times,
        } = self;
        drop(inlets);
        times
    }

    // Waits until the next request is due, and offers it.
    fn send(&mut self) -> Fed
        ensures steps { StepSays self.old.inlets.items self.new.inlets.items self.new.stage result }
    {
        if self.times.is_over() {
            return self.end(0);
        }
        let spun = spin(self.rt, monotonic(self.rt), self.times.due());
        self.times.add_away(spun.away);
        let next = self.times.next();
        match Blob::copy_of(self.alloc, b"get key\r\n") {
            Ok(bytes) => self.offer(
                next.core,
                Rx::Segment {
                    conn: next.conn,
                    bytes,
                },
            ),
            Err(_) => self.stop(),
        }
    }

    // Offers a request to this core. If it is handed back, the next step makes it again.
    fn offer(&mut self, core: u32, item: Rx) -> Fed
        ensures steps { StepSays self.old.inlets.items self.new.inlets.items self.new.stage result }
    {
        if core as usize >= self.inlets.len() {
            drop(item);
            return self.stop();
        }
        self.stage = Stage::Sending;
        match offer(&mut self.inlets, core as usize, item) {
            None => {
                self.times.go_on();
                Fed::Offered
            }
            Some(item) => {
                drop(item);
                Fed::Full
            }
        }
    }

    // Stops the feeder.
    fn stop(&mut self) -> Fed
        ensures steps { StepSays self.old.inlets.items self.new.inlets.items self.new.stage result }
    {
        self.stage = Stage::Broken;
        Fed::Broken
    }

    // Offers the end to this core, if there is one.
    fn end(&mut self, core: u32) -> Fed
        ensures steps { StepSays self.old.inlets.items self.new.inlets.items self.new.stage result }
    {
        if core as usize >= self.inlets.len() {
            self.stage = Stage::Ended;
            return Fed::Ended;
        }
        match offer(&mut self.inlets, core as usize, Rx::End) {
            None => {
                self.stage = Stage::Ending(core.saturating_add(1));
                Fed::Offered
            }
            Some(item) => {
                drop(item);
                self.stage = Stage::Ending(core);
                Fed::Full
            }
        }
    }
}

impl<'a, R: Clock> Feeder for Arrivals<'a, R> {
    ghost inlets = { λ f. f.inlets.items };

    ghost ended = { λ f. f.stage ≡ Stages.Ended };

    ghost broken = { λ f. f.stage ≡ Stages.Broken };

    ghost leads = { λ f g. ⊤ };

    fn step(&mut self) -> Fed {
        match self.stage {
            Stage::Sending => self.send(),
            Stage::Ending(core) => self.end(core),
            Stage::Ended => unreachable!(),
            Stage::Broken => unreachable!(),
        }
    }

    fn meet(&mut self, core: u32, outlet: &mut Outlet) {
        meet(&mut self.inlets, core, outlet);
    }

    ghost leads_same = { λ f. tt };

    ghost leads_on = { λ f g h p q. tt };
}
