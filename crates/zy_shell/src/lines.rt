//! Lines, in pieces.
ghost use Rattle.std.specs.Prelude.{flat_map};
ghost use Rattle.zy_base.specs.Outside.{Writes};
ghost use Rattle.zy_shell.specs.Line.{piece_text, line_with, line_with_two};

use itoa::Buffer;
use zy_base::{Failed, Sink, write_whole};

/// A piece of a line.
#[derive(Clone, Copy)]
pub enum Piece {
    /// These bytes.
    Text(&'static [u8]),
    /// The decimal digits of a number.
    Number(u64),
}

/// Writes the pieces of a line, one after the other.
pub fn write_line<K: Sink>(sink: &mut K, pieces: &[Piece]) -> Result<(), Failed>
    ensures writes { Writes K.holds K.faults K.finishes sink.old sink.new result (flat_map piece_text pieces.now) }
{
    for piece in pieces {
        write_piece(sink, *piece)?;
    }
    Ok(())
}

fn write_piece<K: Sink>(sink: &mut K, piece: Piece) -> Result<(), Failed>
    ensures writes { Writes K.holds K.faults K.finishes sink.old sink.new result (piece_text piece) }
{
    match piece {
        Piece::Text(text) => write_whole(sink, text),
        Piece::Number(number) => {
            let mut buffer = Buffer::new();
            write_whole(sink, buffer.format(number).as_bytes())
        }
    }
}

/// Writes a line with a number at its end.
pub fn write_number<K: Sink>(sink: &mut K, text: &'static [u8], number: u64) -> Result<(), Failed>
    ensures writes { Writes K.holds K.faults K.finishes sink.old sink.new result (line_with text.now number) }
{
    let pieces = [Piece::Text(text), Piece::Number(number), Piece::Text(b"\n")];
    write_line(sink, &pieces)
}

/// Writes a line with two numbers.
pub fn write_two<K: Sink>(
    sink: &mut K,
    text: &'static [u8],
    number: u64,
    middle: &'static [u8],
    other: u64,
) -> Result<(), Failed>
    ensures writes { Writes K.holds K.faults K.finishes sink.old sink.new result
        (line_with_two text.now number middle.now other) }
{
    let pieces = [
        Piece::Text(text),
        Piece::Number(number),
        Piece::Text(middle),
        Piece::Number(other),
        Piece::Text(b"\n"),
    ];
    write_line(sink, &pieces)
}
