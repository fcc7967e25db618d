//! Serving a capture, and writing the result.
ghost use Rattle.std.specs.Prelude.{◌≡◌, ◌≤◌, Some};
ghost use Rattle.zy_base.specs.Outside.{Writes, WritesLast};
ghost use Rattle.zy_capture.specs.Outputs.{AreOutputs};
ghost use Rattle.zy_capture.specs.Replies.{replies_bytes};
ghost use Rattle.zy_journal.specs.Journal.{IsJournal};
ghost use Rattle.zy_command_line.specs.Range.{IsRunnable};
ghost use Rattle.zy_command_line.specs.declared.request.Request.TheVariants as Requests;
ghost use Rattle.zy_read.specs.Seen.{side, both_sides};
ghost use Rattle.zy_shell.specs.Failure.{LeavesSink};
ghost use Rattle.zy_shell.specs.Finish.{FinishesOnce};
ghost use Rattle.zygos_run.specs.Ends.{Ends};
ghost use Rattle.zy_serving.specs.Headline.{front, written};

use crate::answer::Answer;
use std::alloc::Global;
use std::sync::Wait;
use std::thread::Threads;
use zy_base::{Failed, Gate, Sink, Source};
use zy_capture::{Outputs, write_replies};
use zy_command_line::{Out, Run};
use zy_feed::Stop;
use zy_finish::Finished;
use zy_journal::{Journal, write_journal};
use zy_serving::serve_capture;
use zy_shell::{Failure, Refusal, finish_written};

/// Serves a capture, and writes the replies, and the journal if it is requested.
pub(crate) fn run_capture<R: Threads + Wait + Sync, S: Source, K: Sink, G: Gate + Sync>(
    rt: &R,
    alloc: Global,
    run: Run,
    out: Out,
    source: &mut S,
    sink: &mut K,
    gate: &G,
) -> Result<Answer, Failure>
    requires runnable { IsRunnable run }
    ensures reads { S.faults source.old ≤ S.faults source.new }
    ensures writes { K.faults sink.old ≤ K.faults sink.new }
    ensures ends { Ends (Some (Requests.Run run out))
        (both_sides (side S.rest S.faults source.old source.new) (side K.holds K.faults sink.old sink.new)) result }
    ensures sink_kept { LeavesSink result → sink.new ≡ sink.old }
    ensures finished { FinishesOnce result (K.finishes sink.old) (K.finishes sink.new) (K.is_finished sink.new) }
{
    match serve_capture(rt, alloc, run, source, gate) {
        Ok(done) => match write_all(sink, out, &done) {
            Ok(()) => Ok(Answer::Served(done.journal)),
            Err(Failed) => Err(Failure::WriteFault),
        },
        Err(Stop::Refused(fault)) => Err(Failure::Refused(Refusal::Capture(fault))),
        Err(Stop::ReadFault) => Err(Failure::ReadFault),
        Err(Stop::NoMemory) => Err(Failure::OutOfMemory),
    }
}

// Writes the journal if it is requested, and the replies, and finishes. Takes no memory.
fn write_all<K: Sink>(sink: &mut K, out: Out, done: &Finished) -> Result<(), Failed>
    requires outputs { AreOutputs done.now.outputs }
    requires journal { IsJournal done.now.journal }
    ensures writes { WritesLast K.holds K.faults K.finishes K.is_finished sink.old sink.new result
        (written out done.now.journal done.now.outputs) }
{
    write_front(sink, out, &done.journal)?;
    write_back(sink, &done.outputs)
}

// Writes the replies, and finishes.
fn write_back<K: Sink>(sink: &mut K, outputs: &Outputs) -> Result<(), Failed>
    requires outputs { AreOutputs outputs.now }
    ensures writes { WritesLast K.holds K.faults K.finishes K.is_finished sink.old sink.new result
        (replies_bytes outputs.now) }
{
    let written = write_replies(sink, outputs);
    finish_written(sink, written)
}

// Writes what comes before the replies.
fn write_front<K: Sink>(sink: &mut K, out: Out, journal: &Journal) -> Result<(), Failed>
    requires journal { IsJournal journal.now }
    ensures writes { Writes K.holds K.faults K.finishes sink.old sink.new result (front out journal.now) }
{
    match out {
        Out::Replies => Ok(()),
        Out::Both => write_journal(sink, journal),
    }
}
