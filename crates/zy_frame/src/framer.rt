//! Cutting a stream as its pieces come.
ghost use Rattle.std.specs.Prelude.{◌≡◌, ◌<◌, ◌≤◌, ℕ, List, [], ◌∷◌, ◌++◌, length, drop, Ok, IsErr, IfOk, IfErr, OnOk, OnErr};
ghost use Rattle.zy_frame.specs.Cut.{frames_of, meets_quit};
ghost use Rattle.zy_frame.specs.Progress.{StandsFor, IsQuit, IsRefused, kept_by, is_quit};
ghost use Rattle.zy_frame.specs.Feed.{Appends, AppendsFirst};
ghost use Rattle.zy_frame.specs.Steps.{Advances};

use crate::frame::Frame;
use crate::frames::Frames;
use crate::state::{State, refuse};
use crate::stepping::step;
use crate::whole::take_single;
use mc_parse::Parsed;
use std::alloc::Global;
use std::marker::Model;
use zy_base::{Blob, NoMemory};

/// Cuts a stream into frames as its pieces come. Contracts see its unfinished frame, and
/// which streams may have brought it there (`StandsFor`).
#[derive(Drop)]
pub struct Framer {
    alloc: Global,
    state: State,
    // What was read of the line of the block that is to come, if it is kept.
    parsed: Parsed,
}

impl Model for Framer {
    ghost use Rattle.zy_frame.specs.Progress.{Progress, Keeps};
    ghost use Rattle.zy_frame.specs.Steps.{progress_of, IsParsedFor};

    ghost Value = { Progress };

    ghost view = { λ framer. progress_of framer.state };

    ghost invariant = { λ framer. Keeps (progress_of framer.state) × IsParsedFor framer.state framer.parsed };
}

impl Framer {
    /// Begins at the start of a stream. Takes no memory.
    pub fn new(alloc: Global) -> Framer
        ensures empty { StandsFor result [] }
        ensures kept { kept_by result ≡ 0 }
    {
        Framer {
            alloc,
            state: State::Line {
                kept: Blob::new(alloc),
            },
            parsed: Parsed::nothing(),
        }
    }

    /// Takes the next piece of the stream, and appends the frames by which the stream has grown.
    /// May answer `NoMemory`. Then some of those frames were appended, the first ones, and every
    /// later call answers `NoMemory` too and appends nothing. Frames that are whole in the piece
    /// share its bytes, if the piece shares them.
    pub fn feed(&mut self, piece: &Blob, frames: &mut Frames) -> Result<(), NoMemory>
        // For every stream that may have brought the framer here.
        ensures fed { OnOk result ((fed : List ℕ) → StandsFor self.old fed
            → StandsFor self.new (fed ++ piece.now)) }
        ensures due { OnOk result ((fed : List ℕ) → StandsFor self.old fed
            → Appends fed piece.now frames.old frames.new) }

        // After a quit line.
        ensures quit { IsQuit self.old → result ≡ Ok tt }
        ensures lasts { IsQuit self.old → IsQuit self.new }
        ensures none { IsQuit self.old → frames.new ≡ frames.old }

        // If an allocation fails, and after that.
        ensures first { OnErr result ((fed : List ℕ) → StandsFor self.old fed
            → AppendsFirst fed piece.now frames.old frames.new) }
        ensures refused { OnErr result (IsRefused self.new) }
        ensures stays { IsRefused self.old → IsErr result }
        ensures kept { IsRefused self.old → frames.new ≡ frames.old }
    {
        match self.state {
            State::Quit => return Ok(()),
            State::Refused => return Err(NoMemory),
            _ => {}
        }
        let mut at = 0;
        while at < piece.bytes().len() {
            match self.advance(piece, at, frames) {
                Ok(taken) => at += taken,
                Err(e) => return Err(e),
            }
        }
        Ok(())
    }

    /// Makes the frame of the next piece of the stream, if a request begins with the piece and is all of
    /// it: a line, or a storage line with its block. The piece is moved into the frame, and the framer
    /// stays where it is. Any other piece is handed back for `feed`. Takes no memory.
    pub fn single_frame(&self, piece: Blob) -> Result<Frame, Blob>
        ensures fed { IfOk result (λ _. (fed : List ℕ) → StandsFor self.now fed
            → StandsFor self.now (fed ++ piece)) }
        ensures due { IfOk result (λ frame. (fed : List ℕ) → StandsFor self.now fed
            → frames_of (fed ++ piece) ≡ frames_of fed ++ frame ∷ []) }
        ensures returned { IfErr result (λ back. back ≡ piece) }
    {
        match &self.state {
            State::Line { kept } if kept.bytes().is_empty() => take_single(piece),
            _ => Err(piece),
        }
    }

    // Takes some bytes of a piece from a place on, at least one. If allocation fails, every later
    // call fails too.
    fn advance(&mut self, piece: &Blob, at: usize, frames: &mut Frames) -> Result<usize, NoMemory>
        requires some { at < length piece.now }
        ensures value { Advances self.old self.new frames.old frames.new (drop at piece.now) result }
    {
        let bytes = &piece.bytes()[at..];
        match step(
            self.alloc,
            &mut self.state,
            &mut self.parsed,
            piece,
            bytes,
            frames,
        ) {
            Ok(taken) => Ok(taken),
            Err(e) => {
                refuse(&mut self.state);
                Err(e)
            }
        }
    }

    /// Checks whether a quit line was met: then no other frame comes.
    pub fn is_quit(&self) -> bool
        ensures value { result ≡ is_quit self.now }
        ensures exact { (fed : List ℕ) → StandsFor self.now fed → result ≡ meets_quit fed }
    {
        matches!(self.state, State::Quit)
    }

    /// Returns the number of bytes that are kept: at most 1,114,114, whatever was fed.
    pub fn kept(&self) -> usize
        ensures value { result ≡ kept_by self.now }
        ensures limit { result ≤ 1114114 }
    {
        match &self.state {
            State::Line { kept } => kept.bytes().len(),
            State::Block { wanted, block } => wanted.line.bytes().len() + block.bytes().len(),
            State::Large { wanted } => wanted.line.bytes().len(),
            _ => 0,
        }
    }
}
