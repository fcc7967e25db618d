//! Checking a journal and a replies file against a capture.
ghost use Rattle.std.specs.Prelude.{◌≡◌, ◌≤◌, Some};
ghost use Rattle.zy_base.specs.Outside.{WritesLast};
ghost use Rattle.zy_command_line.specs.Range.{AreShards};
ghost use Rattle.zy_command_line.specs.declared.request.Request.TheVariants as Requests;
ghost use Rattle.zy_read.specs.Seen.{side, both_sides};
ghost use Rattle.zy_shell.specs.Failure.{LeavesSink};
ghost use Rattle.zy_shell.specs.Finish.{FinishesOnce};
ghost use Rattle.zygos_run.specs.Ends.{Ends};
ghost use Rattle.zygos_run.specs.Checks.{ChecksTo};
ghost use Rattle.zy_shell.specs.VerdictLine.{verdict_line};

use crate::answer::Answer;
use std::alloc::Global;
use zy_base::{Failed, Sink, Source};
use zy_check::{Verdict, check};
use zy_input::{Stop, read_parts};
use zy_shell::{Failure, finish_written, write_verdict};

/// Reads a capture, a journal and a replies file, and writes the line of the verdict on them.
pub(crate) fn check_input<S: Source, K: Sink>(
    alloc: Global,
    shards: u32,
    source: &mut S,
    sink: &mut K,
) -> Result<Answer, Failure>
    requires shards { AreShards shards }
    ensures reads { S.faults source.old ≤ S.faults source.new }
    ensures writes { K.faults sink.old ≤ K.faults sink.new }
    ensures ends { Ends (Some (Requests.Check shards))
        (both_sides (side S.rest S.faults source.old source.new) (side K.holds K.faults sink.old sink.new)) result }
    ensures sink_kept { LeavesSink result → sink.new ≡ sink.old }
    ensures finished { FinishesOnce result (K.finishes sink.old) (K.finishes sink.new) (K.is_finished sink.new) }
{
    match check_parts(alloc, shards, source) {
        Ok(verdict) => match write_line(sink, verdict) {
            Ok(()) => Ok(Answer::Checked(verdict)),
            Err(Failed) => Err(Failure::WriteFault),
        },
        Err(Stop::Refused(refusal)) => Err(Failure::Refused(refusal)),
        Err(Stop::ReadFault) => Err(Failure::ReadFault),
        Err(Stop::NoMemory) => Err(Failure::OutOfMemory),
    }
}

// Reads the three parts, and checks them.
fn check_parts<S: Source>(alloc: Global, shards: u32, source: &mut S) -> Result<Verdict, Stop>
    requires shards { AreShards shards }
    ensures reads { S.faults source.old ≤ S.faults source.new }
    ensures ends { ChecksTo shards (side S.rest S.faults source.old source.new) result }
{
    let parts = read_parts(alloc, source)?;
    let checked = check(
        alloc,
        &parts.streams,
        &parts.journal,
        &parts.outputs,
        shards,
    );
    drop(parts);
    Ok(checked?)
}

// Writes the line of a verdict, and finishes.
fn write_line<K: Sink>(sink: &mut K, verdict: Verdict) -> Result<(), Failed>
    ensures writes { WritesLast K.holds K.faults K.finishes K.is_finished sink.old sink.new result
        (verdict_line verdict) }
{
    let written = write_verdict(sink, verdict);
    finish_written(sink, written)
}
