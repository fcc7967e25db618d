//! The requested command.
ghost use Rattle.std.specs.Prelude.{◌≡◌, ◌≤◌};
ghost use Rattle.zy_command_line.specs.Request.{request_of};
ghost use Rattle.zy_read.specs.Seen.{side, both_sides};
ghost use Rattle.zy_shell.specs.Asked.{ReadsNothing};
ghost use Rattle.zy_shell.specs.Failure.{LeavesSink};
ghost use Rattle.zy_shell.specs.Finish.{FinishesOnce};
ghost use Rattle.zygos_run.specs.Ends.{Ends};
ghost use Rattle.zygos_run.specs.Task.{input_asked};

use crate::answer::Answer;
use crate::check::check_input;
use crate::generate::make_traffic;
use crate::packets::make_packets;
use crate::report::report_journal;
use crate::run::run_capture;
use crate::self_test::test_traffic;
use std::alloc::Global;
use std::sync::Wait;
use std::thread::Threads;
use zy_base::{Blob, Gate, Sink, Source};
use zy_command_line::laws::requests_are_in_their_ranges;
use zy_command_line::{Request, request_of};
use zy_shell::Failure;

/// Executes the command that the words ask for.
pub(crate) fn carry_out<R: Threads + Wait + Sync, S: Source, K: Sink, G: Gate + Sync>(
    rt: &R,
    alloc: Global,
    words: &[Blob],
    source: &mut S,
    sink: &mut K,
    gate: &G,
) -> Result<Answer, Failure>
    ensures reads { S.faults source.old ≤ S.faults source.new }
    ensures writes { K.faults sink.old ≤ K.faults sink.new }
    ensures ends { Ends (request_of words.now)
        (both_sides (side S.rest S.faults source.old source.new) (side K.holds K.faults sink.old sink.new)) result }
    ensures sink_kept { LeavesSink result → sink.new ≡ sink.old }
    ensures finished { FinishesOnce result (K.finishes sink.old) (K.finishes sink.new) (K.is_finished sink.new) }
    ensures source_kept { ReadsNothing (input_asked (request_of words.now)) → source.new ≡ source.old }
{
    requests_are_in_their_ranges();
    match request_of(alloc, words) {
        Ok(Some(Request::Run { run, out })) => {
            run_capture(rt, alloc, run, out, source, sink, gate)
        }
        Ok(Some(Request::Check { shards })) => check_input(alloc, shards, source, sink),
        Ok(Some(Request::Gen { traffic })) => make_traffic(alloc, traffic, sink),
        Ok(Some(Request::SelfTest { traffic, run })) => {
            test_traffic(rt, alloc, traffic, run, sink, gate)
        }
        Ok(Some(Request::Pcap { port })) => make_packets(alloc, port, source, sink),
        Ok(Some(Request::Report)) => report_journal(alloc, source, sink),
        Ok(None) => Err(Failure::Usage),
        Err(_) => Err(Failure::OutOfMemory),
    }
}
