//! Judging an input.
ghost use Rattle.std.specs.Prelude.{◌≡◌, ◌≤◌, Some};
ghost use Rattle.zy_read.specs.Seen.{side, both_sides};
ghost use Rattle.zy_shell.specs.Failure.{LeavesSink};
ghost use Rattle.zy_shell.specs.Finish.{FinishesOnce};
ghost use Rattle.zygos_judge.specs.Words.{IsShardCount};
ghost use Rattle.zygos_judge.specs.Ends.{HasCause};

use crate::finding::Finding;
use crate::reading::find;
use crate::words::Task;
use crate::writing::write_judged;
use std::alloc::Global;
use zy_base::{Failed, Sink, Source};
use zy_input::Stop;
use zy_shell::Failure;

/// Reads the input, and writes what is found of it.
pub(crate) fn judge_input<S: Source, K: Sink>(
    alloc: Global,
    task: Task,
    source: &mut S,
    sink: &mut K,
) -> Result<Finding, Failure>
    requires shards { IsShardCount task.rules.shards }
    ensures reads { S.faults source.old ≤ S.faults source.new }
    ensures writes { K.faults sink.old ≤ K.faults sink.new }
    ensures ends { HasCause (Some task)
        (both_sides (side S.rest S.faults source.old source.new) (side K.holds K.faults sink.old sink.new)) result }
    ensures sink_kept { LeavesSink result → sink.new ≡ sink.old }
    ensures finished { FinishesOnce result (K.finishes sink.old) (K.finishes sink.new) (K.is_finished sink.new) }
{
    match find(alloc, task, source) {
        Ok(judged) => {
            let finding = judged.finding();
            let written = write_judged(sink, task.to, &judged);
            drop(judged);
            match written {
                Ok(()) => Ok(finding),
                Err(Failed) => Err(Failure::WriteFault),
            }
        }
        Err(Stop::Refused(refusal)) => Err(Failure::Refused(refusal)),
        Err(Stop::ReadFault) => Err(Failure::ReadFault),
        Err(Stop::NoMemory) => Err(Failure::OutOfMemory),
    }
}
