//! The results of a run.
use crate::load::Load;
use crate::notes::Notes;
use crate::times::Times;
use crate::zeros::zeros;
use std::alloc::Global;
use zy_base::NoMemory;
use zy_conn::Block;
use zy_core::{Core, Cores};

// The classes of latencies: exact below 128 nanoseconds, and then 64 for each doubling.
const CLASSES: u64 = 4_096;

// Counts by number; the number is that of a class of latencies, or of the commands of a hold.
#[derive(Drop)]
struct Report {
    latencies: Vec<u64>,
    holds: Vec<u64>,
    served: u64,
    away: u64,
    last: u64,
}

/// Prints how long the requests took, by class, how many were executed by another core than their
/// home, and how many commands the holds had. The first tenth of the time is left out.
pub(crate) fn print_all<R: Print>(
    rt: &R,
    alloc: Global,
    load: Load,
    notes: &Notes,
    times: &Times,
    cores: Cores,
) -> Result<(), NoMemory> {
    let mut report = match empty(alloc) {
        Ok(report) => report,
        Err(e) => {
            drop(cores);
            return Err(e);
        }
    };
    for conn in 0..load.connections() {
        report.add_connection(load, notes, times, conn);
    }
    report.add_holds(cores);
    report.print(rt, times);
    drop(report);
    Ok(())
}

// Begins with nothing counted.
fn empty(alloc: Global) -> Result<Report, NoMemory> {
    let latencies = zeros(alloc, CLASSES)?;
    match zeros(alloc, 65) {
        Ok(holds) => Ok(Report {
            latencies,
            holds,
            served: 0,
            away: 0,
            last: 0,
        }),
        Err(e) => {
            drop(latencies);
            Err(e)
        }
    }
}

// Counts one more at a place, if there is one.
fn count_at(counts: &mut [u64], place: usize) {
    if let Some(count) = counts.get_mut(place) {
        *count = count.saturating_add(1);
    }
}

// Returns the class of a latency.
fn class_of(nanos: u64) -> usize {
    let mut value = nanos;
    let mut class = 0u64;
    for _ in 0..57 {
        if value < 128 {
            break;
        }
        value /= 2;
        class = class.wrapping_add(64);
    }
    class.wrapping_add(value) as usize
}

impl Report {
    // Counts the requests of a connection.
    fn add_connection(&mut self, load: Load, notes: &Notes, times: &Times, conn: u32) {
        let begin = times.begun();
        let from = begin.saturating_add(times.due().saturating_sub(begin) / 10);
        let home = u64::from(load.home_of(conn));
        for index in 0..times.count(conn) {
            let place = load.place_of(conn, index);
            let due = times.due_at(place);
            let end = notes.end(place);
            self.last = self.last.max(end);
            if due >= from && end > 0 {
                count_at(&mut self.latencies, class_of(end.saturating_sub(due)));
                self.served = self.served.saturating_add(1);
                if notes.core(place) != home {
                    self.away = self.away.saturating_add(1);
                }
            }
        }
    }

    // Counts the holds of the cores.
    fn add_holds(&mut self, cores: Cores) {
        let mut cores = cores;
        for _ in 0..u64::MAX {
            let Some(core) = cores.next() else {
                break;
            };
            self.add_core(core);
        }
        drop(cores);
    }

    fn add_core(&mut self, core: Core) {
        let (home, _, passes, outlet, control) = core.into_parts();
        let (pass, mut blocks, ends) = home.into_outputs();
        for _ in 0..u64::MAX {
            let Some(block) = blocks.next() else {
                break;
            };
            self.add_block(block);
        }
        drop(blocks);
        drop(ends);
        drop(pass);
        drop(passes);
        drop(outlet);
        drop(control);
    }

    fn add_block(&mut self, block: Block) {
        let (pass, holds) = block.into_parts();
        drop(pass);
        for hold in holds.items() {
            count_at(&mut self.holds, hold.count as usize);
        }
        drop(holds);
    }

    // Prints all counts.
    fn print<R: Print>(&self, rt: &R, times: &Times) {
        let _ = println!(rt; "served {} away {}", self.served, self.away);
        let span = self.last.saturating_sub(times.begun());
        let _ = println!(rt;
            "nanos {} to {}",
            times.due().saturating_sub(times.begun()),
            span
        );
        print_counts(rt, "latency", &self.latencies);
        print_counts(rt, "hold", &self.holds);
    }
}

// Prints each number with its count, if this is not 0.
fn print_counts<R: Print>(rt: &R, what: &str, counts: &[u64]) {
    for place in 0..counts.len() {
        let count = counts[place];
        if count > 0 {
            let _ = println!(rt; "{} {} {}", what, place, count);
        }
    }
}
