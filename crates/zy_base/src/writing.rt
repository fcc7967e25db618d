//! Writing whole texts to a sink.
ghost use Rattle.std.specs.Prelude.{flat_map};
ghost use Rattle.zy_base.specs.Outside.{Writes};

use crate::outside::{Failed, Sink};

/// Writes the whole piece, in one write or several. Takes no memory.
pub fn write_whole<K: Sink>(sink: &mut K, piece: &[u8]) -> Result<(), Failed>
    ensures writes { Writes K.holds K.faults K.finishes sink.old sink.new result piece.now }
{
    let mut at = 0;
    while at < piece.len() {
        at += sink.write(&piece[at..])?;
    }
    Ok(())
}

/// Writes the pieces one after another, each whole. Takes no memory.
pub fn write_pieces<K: Sink>(sink: &mut K, pieces: &[&[u8]]) -> Result<(), Failed>
    ensures writes { Writes K.holds K.faults K.finishes sink.old sink.new result
        (flat_map (λ piece. piece.now) pieces.now) }
{
    for piece in pieces {
        write_whole(sink, *piece)?;
    }
    Ok(())
}
