//! Writing an output, after which the sink is finished.
ghost use Rattle.std.specs.Prelude.{ℕ, List};
ghost use Rattle.zy_base.specs.Outside.{Writes, WritesLast};

use zy_base::{Failed, Sink, write_whole};

/// Writes the whole piece, and finishes.
pub fn write_last<K: Sink>(sink: &mut K, piece: &[u8]) -> Result<(), Failed>
    ensures writes { WritesLast K.holds K.faults K.finishes K.is_finished sink.old sink.new result
        piece.now }
{
    let written = write_whole(sink, piece);
    finish_written(sink, written)
}

/// Finishes the sink, if all of a text was written to it.
pub fn finish_written<K: Sink>(sink: &mut K, written: Result<(), Failed>) -> Result<(), Failed>
    ensures writes { (first : _) (text : List ℕ)
        → Writes K.holds K.faults K.finishes first sink.old written text
        → WritesLast K.holds K.faults K.finishes K.is_finished first sink.new result text }
{
    match written {
        Ok(()) => sink.finish(),
        Err(failed) => Err(failed),
    }
}
