//! Making the capture of recorded packets.
ghost use Rattle.std.specs.Prelude.{◌≡◌, ◌≤◌, Some, Err, IfOk, IfErr};
ghost use Rattle.zy_base.specs.Outside.{WritesLast};
ghost use Rattle.zy_command_line.specs.Range.{IsPort};
ghost use Rattle.zy_command_line.specs.declared.request.Request.TheVariants as Requests;
ghost use Rattle.zy_pcap.specs.Made.{capture_of};
ghost use Rattle.zy_read.specs.Seen.{side, both_sides, OfGiven};
ghost use Rattle.zy_input.specs.Parts.{HasReadPackets};
ghost use Rattle.zy_shell.specs.Failure.{LeavesSink};
ghost use Rattle.zy_shell.specs.Finish.{FinishesOnce};
ghost use Rattle.zygos_run.specs.Ends.{Ends};
ghost use Rattle.zygos_run.specs.Recorded.{IsOfRecordedPackets};

use crate::answer::Answer;
use std::alloc::Global;
use zy_base::{Failed, Sink, Source};
use zy_input::{Stop, read_packets};
use zy_pcap::{Flows, the_capture_of_a_file_is_good, write_flows};
use zy_shell::Failure;

/// Reads recorded packets, and writes the capture of those to a port.
pub(crate) fn make_packets<S: Source, K: Sink>(
    alloc: Global,
    port: u16,
    source: &mut S,
    sink: &mut K,
) -> Result<Answer, Failure>
    requires port { IsPort port }
    ensures reads { S.faults source.old ≤ S.faults source.new }
    ensures writes { K.faults sink.old ≤ K.faults sink.new }
    ensures ends { Ends (Some (Requests.Pcap port))
        (both_sides (side S.rest S.faults source.old source.new) (side K.holds K.faults sink.old sink.new)) result }
    ensures sink_kept { LeavesSink result → sink.new ≡ sink.old }
    ensures finished { FinishesOnce result (K.finishes sink.old) (K.finishes sink.new) (K.is_finished sink.new) }
{
    match read_flows(alloc, port, source) {
        Ok(flows) => {
            let written = write_capture(sink, &flows);
            drop(flows);
            match written {
                Ok(()) => Ok(Answer::Made),
                Err(Failed) => Err(Failure::WriteFault),
            }
        }
        Err(Stop::Refused(refusal)) => Err(Failure::Refused(refusal)),
        Err(Stop::ReadFault) => Err(Failure::ReadFault),
        Err(Stop::NoMemory) => Err(Failure::OutOfMemory),
    }
}

// Writes the capture, and finishes.
fn write_capture<K: Sink>(sink: &mut K, flows: &Flows) -> Result<(), Failed>
    ensures writes { WritesLast K.holds K.faults K.finishes K.is_finished sink.old sink.new result
        (capture_of flows.now) }
{
    write_flows(sink, flows)?;
    sink.finish()
}

// Reads recorded packets to the end of the source. Their capture is good.
fn read_flows<S: Source>(alloc: Global, port: u16, source: &mut S) -> Result<Flows, Stop>
    requires port { IsPort port }
    ensures reads { S.faults source.old ≤ S.faults source.new }
    ensures ok { IfOk result (λ streams. OfGiven (side S.rest S.faults source.old source.new)
        (λ bytes. IsOfRecordedPackets port bytes (λ capture. capture ≡ capture_of streams))) }
    ensures err { IfErr result
        (λ stop. HasReadPackets port S.rest S.faults source.old source.new (Err stop)) }
{
    the_capture_of_a_file_is_good();
    match read_packets(alloc, port, source) {
        Ok(flows) => Ok(flows),
        Err(stop) => Err(stop),
    }
}
