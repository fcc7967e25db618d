//! The line on standard error that reports a failure.
ghost use Rattle.zy_base.specs.Outside.{Writes};
ghost use Rattle.zy_shell.specs.FailureLine.{beginning, usage_line, reason_line, failure_line, said_line};
ghost use Rattle.zy_shell.specs.Said.{Said};

use crate::failure::Failure;
use crate::faults::write_refusal;
use crate::lines::{Piece, write_line};
use zy_base::{Failed, Sink, write_whole};

/// Writes the line of an answer that is a failure. A failure to write it is ignored.
///
/// `program` is the program's name, and `usage` what may follow it.
pub fn say<A, E: Sink>(
    says: &mut E,
    program: &'static [u8],
    usage: &'static [u8],
    answer: &Result<A, Failure>,
)
    ensures said { Said (E.holds says.old) (E.holds says.new) (E.faults says.old) (E.faults says.new)
        (said_line program.now usage.now answer.now) }
{
    let _ = match answer {
        Ok(_) => Ok(()),
        Err(failure) => write_failure(says, program, usage, *failure),
    };
}

// Writes the line of a failure.
fn write_failure<E: Sink>(
    says: &mut E,
    program: &'static [u8],
    usage: &'static [u8],
    failure: Failure,
) -> Result<(), Failed>
    ensures writes { Writes E.holds E.faults E.finishes says.old says.new result
        (failure_line program.now usage.now failure) }
{
    write_beginning(says, program)?;
    write_reason(says, program, usage, failure)
}

// Writes how the lines of the program begin.
fn write_beginning<E: Sink>(says: &mut E, program: &'static [u8]) -> Result<(), Failed>
    ensures writes { Writes E.holds E.faults E.finishes says.old says.new result (beginning program.now) }
{
    write_line(says, &[Piece::Text(program), Piece::Text(b": ")])
}

// Writes what went wrong.
fn write_reason<E: Sink>(
    says: &mut E,
    program: &'static [u8],
    usage: &'static [u8],
    failure: Failure,
) -> Result<(), Failed>
    ensures writes { Writes E.holds E.faults E.finishes says.old says.new result
        (reason_line program.now usage.now failure) }
{
    match failure {
        Failure::Usage => write_usage(says, program, usage),
        Failure::Refused(refusal) => write_refusal(says, refusal),
        Failure::ReadFault => write_whole(says, b"reading failed\n"),
        Failure::WriteFault => write_whole(says, b"writing failed\n"),
        Failure::OutOfMemory => write_whole(says, b"out of memory\n"),
    }
}

// Writes how the program is called.
fn write_usage<E: Sink>(
    says: &mut E,
    program: &'static [u8],
    usage: &'static [u8],
) -> Result<(), Failed>
    ensures writes { Writes E.holds E.faults E.finishes says.old says.new result
        (usage_line program.now usage.now) }
{
    let pieces = [
        Piece::Text(b"usage: "),
        Piece::Text(program),
        Piece::Text(b" "),
        Piece::Text(usage),
        Piece::Text(b"\n"),
    ];
    write_line(says, &pieces)
}
