//! Judging as the arguments request.
ghost use Rattle.std.specs.Prelude.{◌≡◌, ◌≤◌, None};
ghost use Rattle.zy_read.specs.Seen.{side, both_sides};
ghost use Rattle.zy_shell.specs.Failure.{LeavesSink};
ghost use Rattle.zy_shell.specs.Finish.{FinishesOnce};
ghost use Rattle.zygos_judge.specs.Words.{task_asked};
ghost use Rattle.zygos_judge.specs.Ends.{HasCause};

use crate::finding::Finding;
use crate::input::judge_input;
use crate::words::task_asked;
use std::alloc::Global;
use zy_base::{Blob, Sink, Source};
use zy_shell::Failure;

/// Judges the input, of a server as the arguments describe it.
pub(crate) fn carry_out<S: Source, K: Sink>(
    alloc: Global,
    words: &[Blob],
    source: &mut S,
    sink: &mut K,
) -> Result<Finding, Failure>
    ensures reads { S.faults source.old ≤ S.faults source.new }
    ensures writes { K.faults sink.old ≤ K.faults sink.new }
    ensures ends { HasCause (task_asked words.now)
        (both_sides (side S.rest S.faults source.old source.new) (side K.holds K.faults sink.old sink.new)) result }
    ensures sink_kept { LeavesSink result → sink.new ≡ sink.old }
    ensures finished { FinishesOnce result (K.finishes sink.old) (K.finishes sink.new) (K.is_finished sink.new) }
    ensures source_kept { task_asked words.now ≡ None → source.new ≡ source.old }
{
    match task_asked(words) {
        Some(task) => judge_input(alloc, task, source, sink),
        None => Err(Failure::Usage),
    }
}
