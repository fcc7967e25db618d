//! The line of a verdict.
ghost use Rattle.std.specs.Prelude.{◌≡◌};
ghost use Rattle.zy_base.specs.Outside.{Writes};
ghost use Rattle.zy_shell.specs.VerdictLine.{output_line, cause_text, cause_line, verdict_line};

use crate::lines::{Piece, write_line, write_number, write_two};
use zy_base::{Failed, Sink, write_whole};
use zy_check::{Cause, Verdict};

/// Writes the line of a verdict.
pub fn write_verdict<K: Sink>(sink: &mut K, verdict: Verdict) -> Result<(), Failed>
    ensures writes { Writes K.holds K.faults K.finishes sink.old sink.new result (verdict_line verdict) }
{
    match verdict {
        Verdict::Yes => write_whole(sink, b"yes\n"),
        Verdict::No(cause) => write_cause(sink, cause),
    }
}

// Writes the line of a cause.
fn write_cause<K: Sink>(sink: &mut K, cause: Cause) -> Result<(), Failed>
    ensures writes { Writes K.holds K.faults K.finishes sink.old sink.new result (cause_line cause) }
{
    let text = cause_text(cause);
    match cause {
        Cause::NotNext { entry } | Cause::WrongReply { entry } => write_number(sink, text, entry),
        Cause::Missing { conn, index } => {
            write_two(sink, text, conn as u64, b" command ", index)
        }
        Cause::WrongOutput { conn, session, at } => write_output(sink, text, conn, session, at),
        Cause::WrongHolds { conn } => write_number(sink, text, conn as u64),
    }
}

// Writes the line of a wrong output, which begins with this text.
fn write_output<K: Sink>(
    sink: &mut K,
    text: &'static [u8],
    conn: u32,
    session: u32,
    at: u64,
) -> Result<(), Failed>
    ensures writes { Writes K.holds K.faults K.finishes sink.old sink.new result
        (output_line text.now conn session at) }
{
    let text = Piece::Text(text);
    let conn = Piece::Number(conn as u64);
    let before = Piece::Text(b" at ");
    let at = Piece::Number(at);
    let end = Piece::Text(b"\n");
    if session == 0 {
        write_line(sink, &[text, conn, before, at, end])
    } else {
        let named = Piece::Text(b" session ");
        let session = Piece::Number(session as u64);
        write_line(sink, &[text, conn, named, session, before, at, end])
    }
}

// Returns the beginning of the line of a cause.
fn cause_text(cause: Cause) -> &'static [u8]
    ensures value { result.now ≡ cause_text cause }
{
    match cause {
        Cause::NotNext { .. } => b"no not-next entry ",
        Cause::WrongReply { .. } => b"no wrong-reply entry ",
        Cause::Missing { .. } => b"no missing connection ",
        Cause::WrongOutput { .. } => b"no wrong-output connection ",
        Cause::WrongHolds { .. } => b"no wrong-holds connection ",
    }
}
