//! Frames.
ghost use Rattle.std.specs.Prelude.{◌≡◌, ◌≤◌, ◌+◌, length, take, drop, IfOk};
ghost use Rattle.mc_parse.specs.Parsed.{IsParsed};
ghost use Rattle.mc_parse.specs.Words.{line_limit};
ghost use Rattle.zy_frame.specs.declared.frame_kind.FrameKind.TheVariants as Kinds;
ghost use Rattle.zy_frame.specs.Frame.{IsFrame, parts_seen};

use crate::form::Form;
use crate::parts::Parts;
use mc_parse::Parsed;
use std::alloc::Global;
use std::marker::Model;
use zy_base::{Blob, NoMemory};

/// A frame of a stream. Contracts see it as its kind, which is that of some frame text.
///
/// It is one byte string: if line and block came together, they are neighbours in it, with what was
/// between them.
#[derive(Drop)]
pub struct Frame {
    pub(crate) bytes: Blob,
    // If it has a block, how many bytes its line has, and how many are between line and block.
    pub(crate) line: u32,
    pub(crate) gap: u8,
    pub(crate) form: Form,
    // What was read of its line.
    pub(crate) parsed: Parsed,
}

impl Model for Frame {
    ghost use Rattle.zy_frame.specs.declared.frame_kind.FrameKind.{FrameKind};
    ghost use Rattle.zy_frame.specs.Frame.{IsFrame, IsParsedIn, HasParts, kind_in};

    ghost Value = { FrameKind };

    ghost view = { λ frame. kind_in frame.form frame.line frame.gap frame.bytes };

    ghost invariant = { λ frame. IsFrame (kind_in frame.form frame.line frame.gap frame.bytes)
        × IsParsedIn (kind_in frame.form frame.line frame.gap frame.bytes) frame.parsed
        × HasParts frame.form frame.line frame.gap frame.bytes };
}

impl Frame {
    // Makes the frame of a line that takes no block.
    pub(crate) fn of_line(line: Blob, parsed: &Parsed) -> Frame
        requires frame { IsFrame (Kinds.Line line) }
        requires parsed { IsParsed line parsed.now }
        ensures value { result ≡ Kinds.Line line }
    {
        Frame {
            bytes: line,
            line: 0,
            gap: 0,
            form: Form::Line,
            parsed: *parsed,
        }
    }

    // Makes the frame of a storage line with its block, which are parts of these bytes: the first
    // `line` bytes, and all but those and `gap` bytes after them.
    pub(crate) fn of_whole(bytes: Blob, line: usize, gap: usize, parsed: &Parsed) -> Frame
        requires frame { IsFrame (Kinds.Block (take line bytes) (drop (line + gap) bytes)) }
        requires parsed { IsParsed (take line bytes) parsed.now }
        requires within { line + gap ≤ length bytes }
        requires short { line ≤ line_limit }
        requires near { gap ≤ 2 }
        ensures value { result ≡ Kinds.Block (take line bytes) (drop (line + gap) bytes) }
    {
        Frame {
            bytes,
            line: line as u32,
            gap: gap as u8,
            form: Form::Block,
            parsed: *parsed,
        }
    }

    // Makes the frame of a storage line and its block, which came in several pieces. If allocation
    // fails, both are dropped.
    pub(crate) fn joined(mut line: Blob, block: Blob, parsed: &Parsed) -> Result<Frame, NoMemory>
        requires frame { IsFrame (Kinds.Block line block) }
        requires parsed { IsParsed line parsed.now }
        requires short { length line ≤ line_limit }
        ensures value { IfOk result (λ frame. frame ≡ Kinds.Block line block) }
    {
        let len = line.bytes().len();
        let added = line.append(block.bytes());
        drop(block);
        if added.is_err() || line.share().is_err() {
            drop(line);
            return Err(NoMemory);
        }
        Ok(Frame::of_whole(line, len, 0, parsed))
    }

    // Makes the frame of a storage line whose value is too large.
    pub(crate) fn of_large(line: Blob) -> Frame
        requires frame { IsFrame (Kinds.Large line) }
        ensures value { result ≡ Kinds.Large line }
    {
        Frame {
            bytes: line,
            line: 0,
            gap: 0,
            form: Form::Large,
            parsed: Parsed::nothing(),
        }
    }

    // Makes the frame of a line that is too long. Takes no memory.
    pub(crate) fn long(alloc: Global) -> Frame
        ensures value { result ≡ Kinds.Long }
    {
        Frame {
            bytes: Blob::new(alloc),
            line: 0,
            gap: 0,
            form: Form::Long,
            parsed: Parsed::nothing(),
        }
    }

    /// Copies the frame.
    pub fn copy(&self) -> Result<Frame, NoMemory>
        ensures value { IfOk result (λ copy. copy ≡ self.now) }
    {
        let bytes = self.bytes.copy()?;
        Ok(Frame {
            bytes,
            line: self.line,
            gap: self.gap,
            form: self.form,
            parsed: self.parsed,
        })
    }

    /// Returns the parts of the frame.
    pub fn parts(&self) -> Parts<'_>
        ensures value { parts_seen result ≡ self.now }
    {
        let bytes = self.bytes.bytes();
        match self.form {
            Form::Line => Parts::Line { line: bytes },
            Form::Block => {
                let line = self.line as usize;
                Parts::Block {
                    line: &bytes[..line],
                    block: &bytes[line + self.gap as usize..],
                }
            }
            Form::Large => Parts::Large { line: bytes },
            Form::Long => Parts::Long,
        }
    }
}
