//! Test runs: generated traffic is served, and the result is checked.
ghost use Rattle.std.specs.Prelude.{◌≡◌, ◌≤◌, Some};
ghost use Rattle.zy_base.specs.Outside.{WritesLast};
ghost use Rattle.zy_command_line.specs.Range.{IsMakeable, IsRunnable};
ghost use Rattle.zy_command_line.specs.declared.request.Request.TheVariants as Requests;
ghost use Rattle.zy_read.specs.Seen.{Side, side, both_sides};
ghost use Rattle.zy_shell.specs.Failure.{LeavesSink};
ghost use Rattle.zy_shell.specs.Finish.{FinishesOnce};
ghost use Rattle.zygos_run.specs.Ends.{Ends};
ghost use Rattle.zygos_run.specs.Lines.{summary_line};

use crate::answer::Answer;
use crate::summary::write_summary;
use std::alloc::Global;
use std::sync::Wait;
use std::thread::Threads;
use zy_base::{Failed, Gate, NoMemory, Sink};
use zy_command_line::{Run, Traffic};
use zy_run::Summary;
use zy_self::run_test;
use zy_shell::{Failure, finish_written};

/// Serves generated traffic, checks the result, and writes the line of its numbers.
pub(crate) fn test_traffic<R: Threads + Wait + Sync, K: Sink, G: Gate + Sync>(
    rt: &R,
    alloc: Global,
    traffic: Traffic,
    run: Run,
    sink: &mut K,
    gate: &G,
) -> Result<Answer, Failure>
    requires makeable { IsMakeable traffic }
    requires runnable { IsRunnable run }
    ensures writes { K.faults sink.old ≤ K.faults sink.new }
    ensures ends { (source : Side) → Ends (Some (Requests.SelfTest traffic run))
        (both_sides source (side K.holds K.faults sink.old sink.new)) result }
    ensures sink_kept { LeavesSink result → sink.new ≡ sink.old }
    ensures finished { FinishesOnce result (K.finishes sink.old) (K.finishes sink.new) (K.is_finished sink.new) }
{
    match run_test(rt, alloc, traffic, run, gate) {
        Err(NoMemory) => Err(Failure::OutOfMemory),
        Ok((journal, summary)) => match write_line(sink, &summary) {
            Ok(()) => Ok(Answer::Tested(journal, summary)),
            Err(Failed) => Err(Failure::WriteFault),
        },
    }
}

// Writes the line of the numbers, and finishes.
fn write_line<K: Sink>(sink: &mut K, summary: &Summary) -> Result<(), Failed>
    ensures writes { WritesLast K.holds K.faults K.finishes K.is_finished sink.old sink.new result
        (summary_line summary.now) }
{
    let written = write_summary(sink, summary);
    finish_written(sink, written)
}
