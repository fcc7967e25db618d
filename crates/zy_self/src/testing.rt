//! Test runs: generated traffic is served, and the result is checked.
ghost use Rattle.std.specs.Prelude.{◌≡◌, ℕ, List, IfOk};
ghost use Rattle.zy_capture.specs.declared.record.Record.{Record};
ghost use Rattle.zy_capture.specs.Streams.{no_bytes, with_records};
ghost use Rattle.zy_capture.specs.Verdict.{verdict};
ghost use Rattle.zy_capture.specs.Verdict.Verdict.{Good};
ghost use Rattle.zy_command_line.specs.Range.{IsMakeable, IsRunnable, AreShards};
ghost use Rattle.zy_serving.specs.Headline.{IsServed};
ghost use Rattle.zy_self.specs.Tested.{IsTested, traffic_bytes};

use crate::numbers::summary_of;
use crate::traffic::capture_of;
use std::alloc::Global;
use std::sync::Wait;
use std::thread::Threads;
use zy_base::{Blob, Gate, NoMemory, SureSource};
use zy_capture::Streams;
use zy_check::{Verdict, check, served_runs_check};
use zy_command_line::{Run, Traffic};
use zy_feed::Stop;
use zy_finish::Finished;
use zy_gen::{each_run_of_generated_traffic_has_the_summary, generated_traffic_is_a_good_capture};
use zy_input::read_streams;
use zy_journal::Journal;
use zy_run::Summary;
use zy_serving::serve_capture;

/// Serves generated traffic, and checks the result. Returns the journal and the numbers of the run.
/// The call may wait.
pub fn run_test<R: Threads + Wait + Sync, G: Gate + Sync>(
    rt: &R,
    alloc: Global,
    traffic: Traffic,
    run: Run,
    gate: &G,
) -> Result<(Journal, Summary), NoMemory>
    requires makeable { IsMakeable traffic }
    requires runnable { IsRunnable run }
    ensures tested { IfOk result (λ t. IsTested traffic run t.0 t.1) }
{
    generated_traffic_is_a_good_capture();
    each_run_of_generated_traffic_has_the_summary();
    let mut capture = capture_of(alloc, traffic)?;
    capture.share()?;
    let streams = streams_of(alloc, capture.copy()?)?;
    let done = serve_traffic(rt, alloc, traffic, run, capture, gate)?;
    certify(alloc, traffic, run, &streams, &done)?;
    let summary = summary_of(&done)?;
    Ok((done.journal, summary))
}

// Returns the streams of a capture.
fn streams_of(alloc: Global, capture: Blob) -> Result<Streams, NoMemory>
    ensures value { IfOk result (λ streams. (version count : ℕ) (records : List Record)
        → verdict capture ≡ Good version count records
        → streams ≡ with_records (no_bytes count) records) }
{
    match read_streams(alloc, &mut SureSource::new(capture)) {
        Ok(streams) => Ok(streams),
        Err(_) => Err(NoMemory),
    }
}

// Serves the capture of some traffic.
fn serve_traffic<R: Threads + Wait + Sync, G: Gate + Sync>(
    rt: &R,
    alloc: Global,
    traffic: Traffic,
    run: Run,
    capture: Blob,
    gate: &G,
) -> Result<Finished, NoMemory>
    requires makeable { IsMakeable traffic }
    requires runnable { IsRunnable run }
    requires capture { capture ≡ traffic_bytes traffic }
    ensures served { IfOk result (λ done. IsServed run (traffic_bytes traffic) done.journal done.outputs) }
{
    generated_traffic_is_a_good_capture();
    match serve_capture(rt, alloc, run, &mut SureSource::new(capture), gate) {
        Ok(done) => Ok(done),
        Err(Stop::NoMemory) => Err(NoMemory),
        // The capture is good, and its source never fails.
        Err(Stop::Refused(_)) | Err(Stop::ReadFault) => unreachable!(),
    }
}

// Checks a served run of some traffic: a served run is right.
fn certify(
    alloc: Global,
    traffic: Traffic,
    run: Run,
    streams: &Streams,
    done: &Finished,
) -> Result<(), NoMemory>
    requires shards { AreShards run.shards }
    requires served { IsServed run (traffic_bytes traffic) done.now.journal done.now.outputs }
    requires streams { (version count : ℕ) (records : List Record)
        → verdict (traffic_bytes traffic) ≡ Good version count records
        → streams.now ≡ with_records (no_bytes count) records }
{
    served_runs_check();
    match check(alloc, streams, &done.journal, &done.outputs, run.shards)? {
        Verdict::Yes => Ok(()),
        Verdict::No(_) => unreachable!(),
    }
}
