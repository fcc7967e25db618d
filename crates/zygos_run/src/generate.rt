//! Making traffic.
ghost use Rattle.std.specs.Prelude.{◌≡◌, ◌≤◌, Some};
ghost use Rattle.zy_command_line.specs.Range.{IsMakeable};
ghost use Rattle.zy_command_line.specs.declared.request.Request.TheVariants as Requests;
ghost use Rattle.zy_read.specs.Seen.{Side, side, both_sides};
ghost use Rattle.zy_shell.specs.Failure.{LeavesSink};
ghost use Rattle.zy_shell.specs.Finish.{FinishesOnce};
ghost use Rattle.zygos_run.specs.Ends.{Ends};

use crate::answer::Answer;
use std::alloc::Global;
use zy_base::{Failed, NoMemory, Sink};
use zy_command_line::Traffic;
use zy_self::capture_of;
use zy_shell::{Failure, write_last};

/// Makes the capture of some traffic, and writes it.
pub(crate) fn make_traffic<K: Sink>(
    alloc: Global,
    traffic: Traffic,
    sink: &mut K,
) -> Result<Answer, Failure>
    requires makeable { IsMakeable traffic }
    ensures writes { K.faults sink.old ≤ K.faults sink.new }
    ensures ends { (source : Side) → Ends (Some (Requests.Gen traffic))
        (both_sides source (side K.holds K.faults sink.old sink.new)) result }
    ensures sink_kept { LeavesSink result → sink.new ≡ sink.old }
    ensures finished { FinishesOnce result (K.finishes sink.old) (K.finishes sink.new) (K.is_finished sink.new) }
{
    match capture_of(alloc, traffic) {
        Err(NoMemory) => Err(Failure::OutOfMemory),
        Ok(capture) => match write_last(sink, capture.bytes()) {
            Ok(()) => Ok(Answer::Made),
            Err(Failed) => Err(Failure::WriteFault),
        },
    }
}
