//! Taking the bytes of lines.
ghost use Rattle.std.specs.Prelude.{◌≡◌, ◌<◌, None, length, IfOk, OnErr};
ghost use Rattle.zy_base.specs.Rest.{IsRestOf};
ghost use Rattle.zy_frame.specs.declared.state.State.TheVariants.{Line};
ghost use Rattle.zy_frame.specs.Line.{first_line, IsShort};
ghost use Rattle.zy_frame.specs.Steps.{Goes, ClosesTo, LineAt, Moves, after_line, grown_to, IsParsedFor};

use crate::frame::Frame;
use crate::frames::{Frames, append};
use crate::keeping::keep;
use crate::line_end::{chomp, chomp_kept};
use crate::whole::{Closed, take_request};
use mc_parse::{Need, Parsed, read_need};
use std::alloc::Global;
use std::mem;
use zy_base::{Blob, LINE_LIMIT, NoMemory};

// Appends bytes of a line that goes on after them. Returns whether it is too long: then they are
// not kept.
pub(crate) fn grow_line(kept: &mut Blob, bytes: &[u8]) -> Result<bool, NoMemory>
    requires short { IsShort kept.old }
    requires some { 0 < length bytes.now }
    requires none { first_line bytes.now ≡ None }
    ensures value { IfOk result (λ long.
        Goes (Line kept.old) bytes.now (grown_to long kept.new) (length bytes.now) None) }
{
    if kept.bytes().len() + bytes.len() > LINE_LIMIT {
        return Ok(true);
    }
    kept.append(bytes)?;
    Ok(false)
}

// Ends the line at this place, where its line feed is, of the bytes that end a piece. The frame of a
// request that came whole is appended.
pub(crate) fn end_line(
    alloc: Global,
    kept: &mut Blob,
    piece: &Blob,
    bytes: &[u8],
    at: usize,
    parsed: &mut Parsed,
    frames: &mut Frames,
) -> Result<Closed, NoMemory>
    requires short { IsShort kept.old }
    requires rest { IsRestOf bytes.now piece.now }
    requires line { LineAt bytes.now at }
    ensures value { IfOk result (λ closed. Moves (Line kept.old)
        (after_line closed.need (Line kept.new)) frames.old frames.new bytes.now closed.taken) }
    ensures parsed { IfOk result (λ closed. IsParsedFor (after_line closed.need (Line kept.new)) parsed.new) }
    ensures err { OnErr result (frames.new ≡ frames.old) }
{
    if kept.bytes().len() + at > LINE_LIMIT {
        append(frames, Frame::long(alloc))?;
        kept.truncate(0);
        return Ok(Closed {
            need: Need::Nothing,
            taken: at + 1,
        });
    }
    if kept.bytes().is_empty() {
        return take_request(kept, piece, bytes, at, parsed, frames);
    }
    keep(kept, piece, bytes, at)?;
    let need = close_line(alloc, kept, parsed, frames)?;
    Ok(Closed {
        need,
        taken: at + 1,
    })
}

// Ends a line, which is not too long, with all of its bytes.
fn close_line(
    alloc: Global,
    kept: &mut Blob,
    parsed: &mut Parsed,
    frames: &mut Frames,
) -> Result<Need, NoMemory>
    requires short { IsShort kept.old }
    ensures value { IfOk result (λ need.
        ClosesTo kept.old (after_line need (Line kept.new)) frames.old frames.new) }
    ensures parsed { IfOk result (λ need. IsParsedFor (after_line need (Line kept.new)) parsed.new) }
    ensures err { OnErr result (frames.new ≡ frames.old) }
{
    match read_need(chomp(kept.bytes()), parsed) {
        Need::Nothing => {
            chomp_kept(kept);
            let line = mem::replace(kept, Blob::new(alloc));
            append(frames, Frame::of_line(line, parsed))?;
            Ok(Need::Nothing)
        }
        need => Ok(need),
    }
}
