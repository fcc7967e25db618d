//! Reporting on a journal.
ghost use Rattle.std.specs.Prelude.{◌≡◌, ◌≤◌, Some};
ghost use Rattle.zy_command_line.specs.declared.request.Request.TheVariants as Requests;
ghost use Rattle.zy_read.specs.Seen.{side, both_sides};
ghost use Rattle.zy_shell.specs.Failure.{LeavesSink};
ghost use Rattle.zy_shell.specs.Finish.{FinishesOnce};
ghost use Rattle.zygos_run.specs.Ends.{Ends};
ghost use Rattle.zygos_run.specs.Checks.{ReportsTo};

use crate::answer::Answer;
use std::alloc::Global;
use zy_base::{Blob, Failed, NoMemory, Sink, Source};
use zy_input::{Stop, read_journal};
use zy_journal_reader::a_journal_is_good_exactly_where_it_is_a_spelling;
use zy_report::report;
use zy_shell::{Failure, write_last};

/// Reads a journal, and writes the report on it.
pub(crate) fn report_journal<S: Source, K: Sink>(
    alloc: Global,
    source: &mut S,
    sink: &mut K,
) -> Result<Answer, Failure>
    ensures reads { S.faults source.old ≤ S.faults source.new }
    ensures writes { K.faults sink.old ≤ K.faults sink.new }
    ensures ends { Ends (Some Requests.Report)
        (both_sides (side S.rest S.faults source.old source.new) (side K.holds K.faults sink.old sink.new)) result }
    ensures sink_kept { LeavesSink result → sink.new ≡ sink.old }
    ensures finished { FinishesOnce result (K.finishes sink.old) (K.finishes sink.new) (K.is_finished sink.new) }
{
    match make_report(alloc, source) {
        Ok(table) => {
            let written = write_last(sink, table.bytes());
            drop(table);
            match written {
                Ok(()) => Ok(Answer::Made),
                Err(Failed) => Err(Failure::WriteFault),
            }
        }
        Err(Stop::Refused(refusal)) => Err(Failure::Refused(refusal)),
        Err(Stop::ReadFault) => Err(Failure::ReadFault),
        Err(Stop::NoMemory) => Err(Failure::OutOfMemory),
    }
}

// Reads a journal to the end of the source, and makes the report on it.
fn make_report<S: Source>(alloc: Global, source: &mut S) -> Result<Blob, Stop>
    ensures reads { S.faults source.old ≤ S.faults source.new }
    ensures ends { ReportsTo (side S.rest S.faults source.old source.new) result }
{
    a_journal_is_good_exactly_where_it_is_a_spelling();
    let journal = read_journal(alloc, source)?;
    let made = report(alloc, &journal);
    drop(journal);
    match made {
        Ok(table) => Ok(table),
        Err(NoMemory) => Err(Stop::NoMemory),
    }
}
