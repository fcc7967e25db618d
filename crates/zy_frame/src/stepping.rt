//! Steps in every state.
ghost use Rattle.std.specs.Prelude.{◌≡◌, ◌<◌, length, IfOk, OnErr};
ghost use Rattle.zy_base.specs.Rest.{IsRestOf};
ghost use Rattle.zy_frame.specs.Progress.{Keeps};
ghost use Rattle.zy_frame.specs.Steps.{progress_of, IsParsedFor, Moves};

use crate::frame::Frame;
use crate::frames::{Frames, append};
use crate::in_frame::{pass_block, take_block};
use crate::in_line::{end_line, grow_line};
use crate::line_end::line_end;
use crate::state::{State, begin_line, end_block, go_on_long, take_line};
use mc_parse::Parsed;
use std::alloc::Global;
use zy_base::{Blob, NoMemory};

// Takes some of the bytes that end a piece, at least the first one, and appends the frame that they
// end. If allocation fails, the state may be any.
pub(crate) fn step(
    alloc: Global,
    state: &mut State,
    parsed: &mut Parsed,
    piece: &Blob,
    bytes: &[u8],
    frames: &mut Frames,
) -> Result<usize, NoMemory>
    requires keeps { Keeps (progress_of state.old) }
    requires parsed { IsParsedFor state.old parsed.old }
    requires rest { IsRestOf bytes.now piece.now }
    requires some { 0 < length bytes.now }
    ensures value { IfOk result (λ taken. Moves state.old state.new frames.old frames.new bytes.now taken) }
    ensures parsed { IfOk result (λ taken. IsParsedFor state.new parsed.new) }
    ensures err { OnErr result (frames.new ≡ frames.old) }
{
    match state {
        State::Line { kept } => match line_end(bytes) {
            Some(at) => {
                let closed = end_line(alloc, kept, piece, bytes, at, parsed, frames)?;
                take_line(alloc, state, closed.need);
                Ok(closed.taken)
            }
            None => {
                if grow_line(kept, bytes)? {
                    go_on_long(state);
                }
                Ok(bytes.len())
            }
        },
        State::Long => match line_end(bytes) {
            Some(at) => {
                append(frames, Frame::long(alloc))?;
                begin_line(alloc, state);
                Ok(at + 1)
            }
            None => Ok(bytes.len()),
        },
        State::Block { wanted, block } => {
            let taken = take_block(alloc, wanted, block, parsed, piece, bytes, frames)?;
            end_block(alloc, state);
            Ok(taken)
        }
        State::Large { wanted } => {
            let taken = pass_block(alloc, wanted, bytes, frames)?;
            end_block(alloc, state);
            Ok(taken)
        }
        State::Quit => Ok(bytes.len()),
        State::Refused => Err(NoMemory),
    }
}
