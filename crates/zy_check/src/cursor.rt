//! The commands of a stream, one at a time.
ghost use Rattle.std.specs.Prelude.{◌<◌, ◌≤◌, ℕ, List, [], length, IfOk, OnOk, option_map};
ghost use Rattle.mc_parse.specs.declared.command.Command.{Command};
ghost use Rattle.zy_frame.specs.Frame.{command_of};
ghost use Rattle.zy_check.specs.Cursor.{HasGivenCommands, GaveNext};

use std::alloc::Global;
use std::marker::Model;
use zy_base::{Blob, NoMemory};
use zy_frame::{Frame, Framer, Frames};

// How many bytes are cut at a time. The commands that begin and end in a piece wait with its cursor,
// and each connection has one.
const PIECE: usize = 4096;

/// A place in a stream. Contracts see the unfinished frame of its framer, the frames that wait, and
/// the number of bytes read.
#[derive(Drop)]
pub struct Cursor {
    alloc: Global,
    framer: Framer,
    frames: Frames,
    at: usize,
}

impl Model for Cursor {
    ghost use Rattle.zy_check.specs.Cursor.{Cursor};

    ghost Value = { Cursor };

    ghost view = { λ c. record { framer = c.framer; frames = c.frames; at = c.at } };
}

impl Cursor {
    /// Begins at the start of a stream. Takes no memory.
    pub fn new(alloc: Global) -> Cursor
        ensures none { (stream : List ℕ) → HasGivenCommands result stream [] }
    {
        Cursor {
            alloc,
            framer: Framer::new(alloc),
            frames: Frames::new(alloc),
            at: 0,
        }
    }

    /// Returns the frame of the next command of the stream; `None` after the last one. All calls are
    /// given the same stream.
    pub fn next(&mut self, stream: &[u8]) -> Result<Option<Frame>, NoMemory>
        ensures gave { IfOk result (λ found.
            GaveNext self.old self.new stream.now (option_map command_of found)) }
    {
        while self.at < stream.len() && self.frames.len() == 0 {
            self.read_on(stream)?;
        }
        Ok(self.frames.next())
    }

    // Cuts the next piece of the stream.
    fn read_on(&mut self, stream: &[u8]) -> Result<(), NoMemory>
        requires more { self.old.at < length stream.now }
        ensures on { OnOk result (self.old.at < self.new.at) }
        ensures same { OnOk result ((given : List Command)
            → HasGivenCommands self.old stream.now given
            → HasGivenCommands self.new stream.now given) }
    {
        let end = piece_end(self.at, stream.len());
        let piece = Blob::shared_copy_of(self.alloc, &stream[self.at..end])?;
        let fed = self.framer.feed(&piece, &mut self.frames);
        drop(piece);
        fed?;
        self.at = end;
        Ok(())
    }
}

// Returns the end of the piece of a text that begins at a place.
fn piece_end(at: usize, length: usize) -> usize
    requires more { at < length }
    ensures some { at < result }
    ensures within { result ≤ length }
{
    if length - at > PIECE {
        at + PIECE
    } else {
        length
    }
}
