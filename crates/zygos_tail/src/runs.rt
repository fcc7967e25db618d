//! Runs under load: requests come at the times of a Poisson process, and the cores serve them.
ghost use Rattle.std.specs.Prelude.{◌≤◌};

use crate::load::{Load, Shape};
use crate::services::read_services;
use crate::virtual_time::Prices;
use crate::{driving, virtual_time};
use std::alloc::Global;
use std::io::Read;
use std::sync::Wait;
use std::thread::Threads;
use std::time::Clock;
use zy_base::NoMemory;

/// Serves the requests of a load, and prints the results. If service times are to be given, they
/// come from the input.
pub(crate) fn print_run<R: Threads + Wait + Clock + Print + Sync, I: Read>(
    rt: &R,
    alloc: Global,
    load: Load,
    input: &mut I,
) -> Result<(), NoMemory> {
    let cores = load.cores.max(1).min(8);
    let services = services_of(alloc, load, input)?;
    driving::run(rt, alloc, Load { cores, ..load }, services)
}

/// Serves them in virtual time: all cores on one thread, each with a clock of its own, which
/// advances by these prices.
pub(crate) fn print_virtual_run<R: Clock + Print, I: Read>(
    rt: &R,
    alloc: Global,
    load: Load,
    prices: Prices,
    input: &mut I,
) -> Result<(), NoMemory> {
    let cores = load.cores.max(1).min(64);
    let services = services_of(alloc, load, input)?;
    virtual_time::run(rt, alloc, Load { cores, ..load }, services, prices)
}

// Reads the service times, if they are to be given; otherwise returns none.
fn services_of<I: Read>(alloc: Global, load: Load, input: &mut I) -> Result<Vec<u64>, NoMemory> {
    match load.service.shape {
        Shape::Given => read_services(alloc, input),
        _ => Ok(Vec::new(alloc)),
    }
}
