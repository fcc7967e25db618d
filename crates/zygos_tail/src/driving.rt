//! Driving the cores of a load.
ghost use Rattle.std.specs.Prelude.{◌≡◌, ◌≤◌, length};
ghost use Rattle.zy_core.specs.Cores.{identities, AreCores};

use crate::board::Board;
use crate::clock::monotonic;
use crate::feeder::Arrivals;
use crate::load::{Load, SHARDS};
use crate::report::print_all;
use crate::times::Times;
use std::alloc::Global;
use std::sync::Wait;
use std::thread::Threads;
use std::time::Clock;
use zy_base::NoMemory;
use zy_core::{Cores, Running};
use zy_drive::drive;
use zy_park::Bells;
use zy_rounds::Driven;
use zy_setup::make_run;

/// Serves the requests of a load on a thread for each core, with these service times, and prints
/// the results.
pub(crate) fn run<R: Threads + Wait + Clock + Print + Sync>(
    rt: &R,
    alloc: Global,
    load: Load,
    services: Vec<u64>,
) -> Result<(), NoMemory>
    requires cores { (1 ≤ load.cores) × (load.cores ≤ 8) }
{
    let board = Board::new(rt, alloc, load, services)?;
    let ran = run_gated(rt, alloc, load, &board);
    drop(board);
    ran
}

// Serves the requests with this gate.
fn run_gated<R: Threads + Wait + Clock + Print + Sync>(
    rt: &R,
    alloc: Global,
    load: Load,
    board: &Board<R>,
) -> Result<(), NoMemory>
    requires cores { (1 ≤ load.cores) × (load.cores ≤ 8) }
{
    let times = Times::new(alloc, load)?;
    let running = match make_run(alloc, load.connections(), load.cores, SHARDS) {
        Ok(running) => running,
        Err(e) => {
            drop(times);
            return Err(e);
        }
    };
    let (times, driven) = serve(rt, alloc, load, board, running, times);
    let printed = match driven {
        Driven::Settled(cores) => print_served(rt, alloc, load, board, &times, cores),
        Driven::Broken(cores) => refused(cores),
        Driven::NoMemory(cores) => refused(cores),
    };
    drop(times);
    printed
}

// Prints the results of the run, and for how long it was interrupted.
fn print_served<R: Clock + Print>(
    rt: &R,
    alloc: Global,
    load: Load,
    board: &Board<R>,
    times: &Times,
    cores: Cores,
) -> Result<(), NoMemory> {
    print_all(rt, alloc, load, board.notes(), times, cores)?;
    let _ = println!(rt; "interrupted {} feeder {}", board.away(), times.away());
    Ok(())
}

// Ends a run in which an allocation failed.
fn refused(cores: Cores) -> Result<(), NoMemory> {
    drop(cores);
    Err(NoMemory)
}

// Drives the cores until all requests were executed.
fn serve<R: Threads + Wait + Clock + Sync>(
    rt: &R,
    alloc: Global,
    load: Load,
    board: &Board<R>,
    running: Running,
    mut times: Times,
) -> (Times, Driven)
    requires threads { (1 ≤ load.cores) × (load.cores ≤ 8) }
    requires cores { AreCores running.shared (identities running.cores) }
    requires count { length running.shared.rings ≡ load.cores }
{
    let Running {
        cores,
        shared,
        inlets,
        root,
    } = running;
    // No pass is joined.
    drop(root);
    let (bells, mut root) = match Bells::new(alloc, load.cores) {
        Ok(made) => made,
        Err(NoMemory) => {
            drop(inlets);
            drop(shared);
            return (times, Driven::NoMemory(cores));
        }
    };
    times.begin(monotonic(rt));
    let mut feeder = Arrivals::new(rt, alloc, inlets, times);
    // No core rests.
    let driven = drive(
        rt,
        alloc,
        cores,
        load.cores,
        &shared,
        board,
        &mut feeder,
        &bells,
        &mut root,
        0,
    );
    drop(root);
    drop(bells);
    drop(shared);
    (feeder.into_times(), driven)
}
