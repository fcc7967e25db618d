//! Serving a capture.
ghost use Rattle.std.specs.Prelude.{◌≤◌};
ghost use Rattle.zy_command_line.specs.Range.{IsRunnable};
ghost use Rattle.zy_read.specs.Seen.{side};
ghost use Rattle.zy_serving.specs.Runs.{RunsTo};

use crate::drive::drive_capture;
use std::alloc::Global;
use std::sync::Wait;
use std::thread::Threads;
use zy_base::{CONNECTION_LIMIT, Gate, NoMemory, Source};
use zy_capture::a_capture_is_good_exactly_where_it_is_a_spelling;
use zy_command_line::Run;
use zy_feed::{Intake, Stop};
use zy_finish::{Finished, finish};
use zy_setup::make_run;

/// Serves a capture on the requested cores: reads it to its end, executes its commands, and
/// collects the journal and the outputs. The call may wait.
pub fn serve_capture<R: Threads + Wait + Sync, S: Source, G: Gate + Sync>(
    rt: &R,
    alloc: Global,
    run: Run,
    source: &mut S,
    gate: &G,
) -> Result<Finished, Stop>
    requires runnable { IsRunnable run }
    ensures reads { S.faults source.old ≤ S.faults source.new }
    ensures ends { RunsTo run (side S.rest S.faults source.old source.new) result }
{
    a_capture_is_good_exactly_where_it_is_a_spelling();
    let (intake, header) = Intake::begin(alloc, source)?;
    // A reader never reports a higher count.
    if header.count > CONNECTION_LIMIT {
        drop(intake);
        return Err(Stop::NoMemory);
    }
    let running = match make_run(alloc, header.count, run.cores, run.shards) {
        Ok(running) => running,
        Err(NoMemory) => {
            drop(intake);
            return Err(Stop::NoMemory);
        }
    };
    let driven = drive_capture(rt, alloc, run, source, intake, running, gate)?;
    let finished = finish(alloc, header, driven)?;
    Ok(finished)
}
