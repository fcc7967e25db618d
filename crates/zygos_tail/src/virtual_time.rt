//! Serving a load in virtual time: all cores on the caller's thread, each with a clock of its own.
ghost use Rattle.std.specs.Prelude.{◌≤◌};
ghost use Rattle.zy_core.specs.Cores.{identities, AreCores};

mod clocks;
mod gate;
mod parts;
mod source;
mod state;
mod turns;

use crate::load::{Load, SHARDS};
use crate::notes::Notes;
use crate::report::print_all;
use crate::times::Times;
pub(crate) use clocks::Waits;
pub(crate) use parts::Parts;
use state::{Run, Served};
use std::alloc::Global;
use std::time::Clock;
use turns::take_turns;
use zy_base::NoMemory;
use zy_core::{Cores, Running};
use zy_setup::make_run;

/// The prices by which virtual time advances, and how many turns are measured and printed.
#[derive(Clone, Copy)]
pub(crate) struct Prices {
    /// The nanoseconds that each thing costs that a turn does.
    pub(crate) parts: Parts,
    /// How long an idle core waits before it looks again.
    pub(crate) waits: Waits,
    /// The number of turns whose times are printed.
    pub(crate) samples: u64,
}

/// Serves the requests of a load in virtual time, with these service times, and prints the results.
pub(crate) fn run<R: Clock + Print>(
    rt: &R,
    alloc: Global,
    load: Load,
    services: Vec<u64>,
    prices: Prices,
) -> Result<(), NoMemory>
    requires cores { (1 ≤ load.cores) × (load.cores ≤ 64) }
{
    let notes = Notes::new(alloc, load, services)?;
    let ran = run_noted(rt, alloc, load, &notes, prices);
    drop(notes);
    ran
}

// Serves the requests with these notes.
fn run_noted<R: Clock + Print>(
    rt: &R,
    alloc: Global,
    load: Load,
    notes: &Notes,
    prices: Prices,
) -> Result<(), NoMemory>
    requires cores { (1 ≤ load.cores) × (load.cores ≤ 64) }
{
    let times = Times::new(alloc, load)?;
    match make_run(alloc, load.connections(), load.cores, SHARDS) {
        Ok(running) => serve(rt, alloc, load, notes, running, times, prices),
        Err(e) => {
            drop(times);
            Err(e)
        }
    }
}

// Lets the cores take their turns until all requests were executed, and prints the results.
fn serve<R: Clock + Print>(
    rt: &R,
    alloc: Global,
    load: Load,
    notes: &Notes,
    running: Running,
    times: Times,
    prices: Prices,
) -> Result<(), NoMemory>
    requires cores { AreCores running.shared (identities running.cores) }
{
    let Running {
        cores,
        shared,
        inlets,
        root,
    } = running;
    // No pass is joined.
    drop(root);
    let mut run = match Run::new(alloc, load, notes, inlets, times, prices) {
        Ok(run) => run,
        Err(e) => {
            drop(cores);
            drop(shared);
            return Err(e);
        }
    };
    let mut items = cores.into_items();
    let taken = take_turns(rt, &mut items, &shared, &mut run);
    drop(shared);
    let served = run.into_served();
    let printed = match taken {
        Ok(()) => print_served(rt, alloc, load, notes, &served, Cores::from_items(items)),
        Err(e) => {
            drop(items);
            Err(e)
        }
    };
    drop(served);
    printed
}

// Prints the results of the requests, and what the turns did.
fn print_served<R: Print>(
    rt: &R,
    alloc: Global,
    load: Load,
    notes: &Notes,
    served: &Served,
    cores: Cores,
) -> Result<(), NoMemory> {
    print_all(rt, alloc, load, notes, served.times(), cores)?;
    served.print(rt);
    Ok(())
}
