//! Taking the bytes of blocks.
ghost use Rattle.std.specs.Prelude.{◌≡◌, ◌<◌, ◌++◌, length, IfOk, OnOk, OnErr};
ghost use Rattle.zy_base.specs.Rest.{IsRestOf};
ghost use Rattle.zy_frame.specs.declared.state.State.TheVariants.{Block, Large};
ghost use Rattle.zy_frame.specs.Progress.{IsKeptBlock, IsLargeBlock};
ghost use Rattle.mc_parse.specs.Parsed.{IsParsed};
ghost use Rattle.zy_frame.specs.Line.{chomped};
ghost use Rattle.zy_frame.specs.Steps.{awaited, after_block, IsParsedFor, Moves};

use crate::frame::Frame;
use crate::frames::{Frames, append};
use crate::keeping::keep;
use crate::line_end::chomp_kept;
use crate::wanted::Wanted;
use mc_parse::Parsed;
use std::alloc::Global;
use std::mem;
use zy_base::{Blob, NoMemory};

// The most room that is taken for a block before its bytes have come.
const BLOCK_ROOM: usize = 1_024;

// Takes bytes of a block from the end of a piece. Its frame is appended once no byte is missing.
pub(crate) fn take_block(
    alloc: Global,
    wanted: &mut Wanted,
    block: &mut Blob,
    parsed: &Parsed,
    piece: &Blob,
    bytes: &[u8],
    frames: &mut Frames,
) -> Result<usize, NoMemory>
    requires keeps { IsKeptBlock (awaited wanted.old) block.old }
    requires parsed { IsParsed (chomped wanted.old.line) parsed.now }
    requires rest { IsRestOf bytes.now piece.now }
    requires some { 0 < length bytes.now }
    ensures value { IfOk result (λ taken. Moves (Block wanted.old block.old)
        (after_block (Block wanted.new block.new)) frames.old frames.new bytes.now taken) }
    ensures parsed { IfOk result (λ taken. IsParsedFor (after_block (Block wanted.new block.new)) parsed.now) }
    ensures err { OnErr result (frames.new ≡ frames.old) }
{
    let left = wanted.left;
    if bytes.len() < left {
        grow_block(block, left, bytes)?;
        wanted.left = left - bytes.len();
        return Ok(bytes.len());
    }
    keep(block, piece, bytes, left)?;
    wanted.left = 0;
    chomp_kept(&mut wanted.line);
    let line = mem::replace(&mut wanted.line, Blob::new(alloc));
    let block = mem::replace(block, Blob::new(alloc));
    let frame = Frame::joined(line, block, parsed)?;
    append(frames, frame)?;
    Ok(left)
}

// Appends bytes of a block, of which `left` were still to come. The first ones take room for the
// others, or for some of them if a client announces many.
pub(crate) fn grow_block(block: &mut Blob, left: usize, bytes: &[u8]) -> Result<(), NoMemory>
    ensures ok { OnOk result (block.new ≡ block.old ++ bytes.now) }
    ensures err { OnErr result (block.new ≡ block.old) }
{
    if block.bytes().is_empty() {
        block.make_room(left.min(BLOCK_ROOM))?;
    }
    block.append(bytes)
}

// Takes bytes of a block that is too large: they are not kept.
pub(crate) fn pass_block(
    alloc: Global,
    wanted: &mut Wanted,
    bytes: &[u8],
    frames: &mut Frames,
) -> Result<usize, NoMemory>
    requires keeps { IsLargeBlock (awaited wanted.old) }
    requires some { 0 < length bytes.now }
    ensures value { IfOk result (λ taken. Moves (Large wanted.old)
        (after_block (Large wanted.new)) frames.old frames.new bytes.now taken) }
    ensures err { OnErr result (frames.new ≡ frames.old) }
{
    let left = wanted.left;
    if bytes.len() < left {
        wanted.left = left - bytes.len();
        return Ok(bytes.len());
    }
    wanted.left = 0;
    chomp_kept(&mut wanted.line);
    let line = mem::replace(&mut wanted.line, Blob::new(alloc));
    append(frames, Frame::of_large(line))?;
    Ok(left)
}
