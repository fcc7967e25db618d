//! Writing the line of a finding.
ghost use Rattle.zy_base.specs.Outside.{Writes, WritesLast};
ghost use Rattle.zygos_linear.specs.Lines.{finding_line, timing_line};

use crate::finding::Finding;
use zy_base::{Failed, Sink};
use zy_check::Verdict;
use zy_shell::{finish_written, write_number, write_two, write_verdict};
use zy_times::Timing;

/// Writes the line of a finding, and finishes.
pub(crate) fn write_finding<K: Sink>(sink: &mut K, finding: Finding) -> Result<(), Failed>
    ensures writes { WritesLast K.holds K.faults K.finishes K.is_finished sink.old sink.new result
        (finding_line finding) }
{
    let written = write_line(sink, finding);
    finish_written(sink, written)
}

// Writes the line of a finding.
fn write_line<K: Sink>(sink: &mut K, finding: Finding) -> Result<(), Failed>
    ensures writes { Writes K.holds K.faults K.finishes sink.old sink.new result (finding_line finding) }
{
    match finding {
        Finding::NoRun(cause) => write_verdict(sink, Verdict::No(cause)),
        Finding::Run(timing) => write_timing(sink, timing),
    }
}

// Writes the line of how a journal fits the times.
fn write_timing<K: Sink>(sink: &mut K, timing: Timing) -> Result<(), Failed>
    ensures writes { Writes K.holds K.faults K.finishes sink.old sink.new result (timing_line timing) }
{
    match timing {
        Timing::InTime { commands, ended } => {
            write_two(sink, b"yes commands ", commands, b" ended ", ended)
        }
        Timing::EarlyEnd { record } => write_number(sink, b"no early-end record ", record),
        Timing::OutOfTime { entry, after } => {
            write_two(sink, b"no out-of-time entry ", entry, b" after ", after)
        }
    }
}
