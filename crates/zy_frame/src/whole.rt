//! Taking requests that come whole.
ghost use Rattle.std.specs.Prelude.{◌≡◌, ◌≤◌, ◌+◌, [], ◌∷◌, length, take, drop, IfOk, IfErr, OnErr, IfSome};
ghost use Rattle.zy_base.specs.Rest.{IsRestOf};
ghost use Rattle.mc_calls.specs.Shard.{value_limit};
ghost use Rattle.mc_parse.specs.Words.{line_limit};
ghost use Rattle.mc_parse.specs.Need.{need};
ghost use Rattle.mc_parse.specs.Parsed.{IsParsed};
ghost use Rattle.mc_parse.specs.declared.need.Need.TheVariants as Needs;
ghost use Rattle.zy_frame.specs.declared.state.State.TheVariants.{Line};
ghost use Rattle.zy_frame.specs.Line.{chomped};
ghost use Rattle.zy_frame.specs.Steps.{LineAt, Moves, after_line, IsParsedFor};

use crate::frame::Frame;
use crate::frames::{Frames, append};
use crate::keeping::{first_part, keep};
use crate::line_end::{chomp, line_end};
use mc_parse::{Need, Parsed, read_need};
use zy_base::{Blob, LINE_LIMIT, NoMemory, VALUE_LIMIT};

// What the end of a line gave: what the line still needs, and how many bytes were taken.
#[derive(Clone, Copy)]
pub(crate) struct Closed {
    pub(crate) need: Need,
    pub(crate) taken: usize,
}

// Takes the request that begins these bytes, which end a piece, if it came whole: its line ends at
// this place. Otherwise its line is kept.
pub(crate) fn take_request(
    kept: &mut Blob,
    piece: &Blob,
    bytes: &[u8],
    at: usize,
    parsed: &mut Parsed,
    frames: &mut Frames,
) -> Result<Closed, NoMemory>
    requires empty { kept.old ≡ [] }
    requires rest { IsRestOf bytes.now piece.now }
    requires line { LineAt bytes.now at }
    requires short { at ≤ line_limit }
    ensures value { IfOk result (λ closed. Moves (Line [])
        (after_line closed.need (Line kept.new)) frames.old frames.new bytes.now closed.taken) }
    ensures parsed { IfOk result (λ closed. IsParsedFor (after_line closed.need (Line kept.new)) parsed.new) }
    ensures err { OnErr result (frames.new ≡ frames.old) }
{
    let need = read_need(chomp(&bytes[..at]), parsed);
    match need {
        Need::Nothing => {
            let line = first_part(piece, bytes, chomp(&bytes[..at]).len())?;
            append(frames, Frame::of_line(line, parsed))?;
            Ok(Closed {
                need,
                taken: at + 1,
            })
        }
        need => {
            if let Some(size) = block_in(bytes, at, need) {
                take_with_block(piece, bytes, at, size, parsed, frames)?;
                return Ok(Closed {
                    need: Need::Nothing,
                    taken: at + 1 + (size as usize + 2),
                });
            }
            keep(kept, piece, bytes, at)?;
            Ok(Closed {
                need,
                taken: at + 1,
            })
        }
    }
}

// Returns the size of the block that the line needs which ends at this place, if the block has come
// whole and is not too large.
fn block_in(bytes: &[u8], at: usize, needed: Need) -> Option<u32>
    requires line { LineAt bytes.now at }
    ensures sized { IfSome result (λ size. needed ≡ Needs.Block size) }
    ensures small { IfSome result (λ size. size ≤ value_limit) }
    ensures whole { IfSome result (λ size. size + 2 ≤ length (drop (at + 1) bytes.now)) }
{
    let Need::Block { bytes: size } = needed else {
        return None;
    };
    if size <= VALUE_LIMIT && size as usize + 2 < bytes.len() - at {
        Some(size)
    } else {
        None
    }
}

// Appends the frame of the storage line that ends at this place, and of its block of this size.
fn take_with_block(
    piece: &Blob,
    bytes: &[u8],
    at: usize,
    size: u32,
    parsed: &Parsed,
    frames: &mut Frames,
) -> Result<(), NoMemory>
    requires rest { IsRestOf bytes.now piece.now }
    requires line { LineAt bytes.now at }
    requires short { at ≤ line_limit }
    requires sized { need (chomped (take at bytes.now)) ≡ Needs.Block size }
    requires small { size ≤ value_limit }
    requires whole { size + 2 ≤ length (drop (at + 1) bytes.now) }
    requires parsed { IsParsed (chomped (take at bytes.now)) parsed.now }
    ensures value { IfOk result (λ _. Moves (Line []) (Line []) frames.old frames.new bytes.now (at + 1 + (size + 2))) }
    ensures err { OnErr result (frames.new ≡ frames.old) }
{
    let line = chomp(&bytes[..at]).len();
    let whole = first_part(piece, bytes, at + 1 + (size as usize + 2))?;
    append(frames, Frame::of_whole(whole, line, at + 1 - line, parsed))?;
    Ok(())
}

// Makes the frame of a piece that is exactly one request, which is moved into it. Any other piece is
// handed back. Takes no memory.
pub(crate) fn take_single(piece: Blob) -> Result<Frame, Blob>
    ensures value { IfOk result (λ frame. Moves (Line []) (Line []) [] (frame ∷ []) piece (length piece)) }
    ensures returned { IfErr result (λ back. back ≡ piece) }
{
    let bytes = piece.bytes();
    let len = bytes.len();
    let Some(at) = line_end(bytes) else {
        return Err(piece);
    };
    if at > LINE_LIMIT {
        return Err(piece);
    }
    let mut parsed = Parsed::nothing();
    match read_need(chomp(&bytes[..at]), &mut parsed) {
        Need::Nothing if at + 1 == len => Ok(single_line(piece, at, &parsed)),
        Need::Block { bytes: size } if size <= VALUE_LIMIT && at + 1 + (size as usize + 2) == len =>
            { Ok(single_block(piece, at, size, &parsed)) }
        _ => Err(piece),
    }
}

// Makes the frame of a piece that is one line, whose line feed is at this place.
fn single_line(piece: Blob, at: usize, parsed: &Parsed) -> Frame
    requires line { LineAt piece at }
    requires short { at ≤ line_limit }
    requires alone { need (chomped (take at piece)) ≡ Needs.Nothing }
    requires parsed { IsParsed (chomped (take at piece)) parsed.now }
    ensures value { Moves (Line []) (Line []) [] (result ∷ []) piece (at + 1) }
{
    let mut piece = piece;
    let line = chomp(&piece.bytes()[..at]).len();
    piece.truncate(line);
    Frame::of_line(piece, parsed)
}

// Makes the frame of a piece that is the storage line which ends at this place, with its block of this size.
fn single_block(piece: Blob, at: usize, size: u32, parsed: &Parsed) -> Frame
    requires line { LineAt piece at }
    requires short { at ≤ line_limit }
    requires sized { need (chomped (take at piece)) ≡ Needs.Block size }
    requires small { size ≤ value_limit }
    requires all { at + 1 + (size + 2) ≡ length piece }
    requires parsed { IsParsed (chomped (take at piece)) parsed.now }
    ensures value { Moves (Line []) (Line []) [] (result ∷ []) piece (at + 1 + (size + 2)) }
{
    let line = chomp(&piece.bytes()[..at]).len();
    Frame::of_whole(piece, line, at + 1 - line, parsed)
}
