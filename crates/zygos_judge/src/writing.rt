//! Writing what was judged.
ghost use Rattle.zy_base.specs.Outside.{Writes, WritesLast};
ghost use Rattle.zygos_judge.specs.Input.{judged_text};
ghost use Rattle.zygos_judge.specs.Lines.{call_line, command_line, finding_line, open_line, reason_line};

use crate::finding::{Finding, Open, Reason};
use crate::judged::Judged;
use zy_base::{Failed, Sink};
use zy_items::write_items;
use zy_shell::{Piece, finish_written, write_line, write_number, write_two};

/// Writes what was judged, with what the server has at last if that is asked for, and finishes.
pub(crate) fn write_judged<K: Sink>(sink: &mut K, to: bool, judged: &Judged) -> Result<(), Failed>
    ensures writes { WritesLast K.holds K.faults K.finishes K.is_finished sink.old sink.new result
        (judged_text to judged.now) }
{
    let written = write_text(sink, to, judged);
    finish_written(sink, written)
}

// Writes what was judged.
fn write_text<K: Sink>(sink: &mut K, to: bool, judged: &Judged) -> Result<(), Failed>
    ensures writes { Writes K.holds K.faults K.finishes sink.old sink.new result (judged_text to judged.now) }
{
    write_found(sink, judged.finding())?;
    match judged {
        Judged::Window(led) if to => write_items(sink, &led.to),
        _ => Ok(()),
    }
}

// Writes the line of a finding.
fn write_found<K: Sink>(sink: &mut K, finding: Finding) -> Result<(), Failed>
    ensures writes { Writes K.holds K.faults K.finishes sink.old sink.new result (finding_line finding) }
{
    match finding {
        Finding::Explained { commands, ended } => {
            write_two(sink, b"yes commands ", commands, b" ended ", ended)
        }
        Finding::Refuted(reason) => write_reason(sink, reason),
        Finding::Unknown(why) => write_open(sink, why),
    }
}

// Writes the line of a reason.
fn write_reason<K: Sink>(sink: &mut K, reason: Reason) -> Result<(), Failed>
    ensures writes { Writes K.holds K.faults K.finishes sink.old sink.new result (reason_line reason) }
{
    match reason {
        Reason::Kind { conn, command } => {
            write_command(sink, b"no kind connection ", conn, command)
        }
        Reason::Surplus { conn, session } => {
            write_two(
                sink,
                b"no surplus connection ",
                conn as u64,
                b" session ",
                session,
            )
        }
        Reason::EarlyEnd { record } => write_number(sink, b"no early-end record ", record),
        Reason::Unmet {
            conn,
            command,
            part,
        } => { write_call(sink, b"no unmet connection ", conn, command, part) }
        Reason::Shared {
            conn,
            command,
            part,
        } => { write_call(sink, b"no shared connection ", conn, command, part) }
    }
}

// Writes the line of what is not known.
fn write_open<K: Sink>(sink: &mut K, why: Open) -> Result<(), Failed>
    ensures writes { Writes K.holds K.faults K.finishes sink.old sink.new result (open_line why) }
{
    match why {
        Open::Other { conn, command } => {
            write_command(sink, b"unknown other connection ", conn, command)
        }
        Open::Search { conn, command } => {
            write_command(sink, b"unknown search connection ", conn, command)
        }
    }
}

// Writes a line that names a command.
fn write_command<K: Sink>(
    sink: &mut K,
    text: &'static [u8],
    conn: u32,
    command: u64,
) -> Result<(), Failed>
    ensures writes { Writes K.holds K.faults K.finishes sink.old sink.new result
        (command_line text.now conn command) }
{
    write_two(sink, text, conn as u64, b" command ", command)
}

// Writes a line that names a call.
fn write_call<K: Sink>(
    sink: &mut K,
    text: &'static [u8],
    conn: u32,
    command: u64,
    part: u64,
) -> Result<(), Failed>
    ensures writes { Writes K.holds K.faults K.finishes sink.old sink.new result
        (call_line text.now conn command part) }
{
    let pieces = [
        Piece::Text(text),
        Piece::Number(conn as u64),
        Piece::Text(b" command "),
        Piece::Number(command),
        Piece::Text(b" part "),
        Piece::Number(part),
        Piece::Text(b"\n"),
    ];
    write_line(sink, &pieces)
}
