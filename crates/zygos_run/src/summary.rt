//! The line that a test run writes.
ghost use Rattle.zy_base.specs.Outside.{Writes};
ghost use Rattle.zygos_run.specs.Lines.{summary_line};

use zy_base::{Failed, Sink};
use zy_run::Summary;
use zy_shell::{Piece, write_line};

/// Writes the line of the numbers of a test run.
pub(crate) fn write_summary<K: Sink>(sink: &mut K, summary: &Summary) -> Result<(), Failed>
    ensures writes { Writes K.holds K.faults K.finishes sink.old sink.new result (summary_line summary.now) }
{
    let pieces = [
        Piece::Text(b"commands "),
        Piece::Number(summary.commands),
        Piece::Text(b" calls "),
        Piece::Number(summary.calls),
        Piece::Text(b" reply-bytes "),
        Piece::Number(summary.reply_bytes),
        Piece::Text(b" check yes\n"),
    ];
    write_line(sink, &pieces)
}
