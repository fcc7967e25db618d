//! The command in progress.
ghost use Rattle.std.specs.Prelude.{◌≡◌, ◌≢◌, ◌<◌, [], true, false, vec_len, vec_capacity};
ghost use Rattle.std.specs.Prelude.{IfSome, IfNone, IfOk, OnOk, OnErr};
ghost use Rattle.zy_frame.specs.declared.frame_kind.FrameKind.{FrameKind};
ghost use Rattle.zy_frame.specs.Frame.{command_of};
ghost use Rattle.mc_parse.specs.declared.command.Command.{Command};
ghost use Rattle.zy_conn.specs.Work.{no_frame, frame_alone, command_read, is_going, is_alone};

use mc_parse::{Command, Keys};
use std::alloc::Global;
use std::marker::Model;
use std::mem;
use zy_base::{Blob, NoMemory};
use zy_frame::{Frame, meaning_in};

// The most keys for which room is kept.
const KEY_ROOM: usize = 128;

/// What is begun: nothing, a frame that was taken from the event ring, or the command of that
/// frame, with the calls that were made. Contracts see which of these.
///
/// A finished command stays in its place until the next one is read, so that it is moved once.
#[derive(Drop)]
pub(crate) struct Begun {
    // Whether the command is in progress.
    going: bool,
    command: Command,
    // A frame whose command could not be allocated, if there is one; then no command is in
    // progress.
    frame: Option<Frame>,
    // Room for the keys of the next retrieval, which the last one had.
    room: Vec<Blob>,
}

impl Model for Begun {
    ghost use Rattle.zy_conn.specs.Work.{Started, started};

    ghost Value = { Started };

    ghost view = { λ b. started b.going b.command b.frame };
}

impl Begun {
    /// Begins with nothing.
    pub(crate) fn new(alloc: Global) -> Begun
        ensures value { result ≡ no_frame }
    {
        Begun {
            going: false,
            command: Command::Version,
            frame: None,
            room: Vec::new(alloc),
        }
    }

    /// Checks whether a command is in progress.
    pub(crate) fn is_going(&self) -> bool
        ensures value { result ≡ is_going self.now }
    {
        self.going
    }

    /// Checks whether a frame was taken whose command was not read.
    pub(crate) fn is_alone(&self) -> bool
        ensures value { result ≡ is_alone self.now }
    {
        !self.going && self.frame.is_some()
    }

    /// Returns the command in progress.
    pub(crate) fn command(&self) -> &Command
        requires going { is_going self.now ≡ true }
        ensures value { self.now ≡ command_read result.now }
    {
        &self.command
    }

    /// Takes the frame whose command was not read; then nothing is begun. If there is none, answers
    /// `None` and changes nothing.
    pub(crate) fn take_frame(&mut self) -> Option<Frame>
        ensures some { IfSome result (λ frame. (self.old ≡ frame_alone frame) × (self.new ≡ no_frame)) }
        ensures none { IfNone result ((self.new ≡ self.old) × (is_alone self.old ≡ false)) }
    {
        if self.going {
            return None;
        }
        mem::replace(&mut self.frame, None)
    }

    /// Reads the command of a frame, when nothing is begun, and begins it. If allocation fails, the
    /// frame is kept.
    pub(crate) fn read(&mut self, alloc: Global, frame: Frame) -> Result<(), NoMemory>
        requires none { self.old ≡ no_frame }
        ensures ok { OnOk result (self.new ≡ command_read (command_of frame)) }
        ensures err { OnErr result (self.new ≡ frame_alone frame) }
    {
        self.room.clear();
        match meaning_in(alloc, frame, &mut self.room) {
            Ok(command) => {
                self.command = command;
                self.going = true;
                Ok(())
            }
            Err((frame, e)) => {
                drop(mem::replace(&mut self.frame, Some(frame)));
                Err(e)
            }
        }
    }

    /// Begins this command, when nothing is begun. Takes no memory.
    pub(crate) fn begin(&mut self, command: Command)
        requires none { self.old ≡ no_frame }
        ensures value { self.new ≡ command_read command }
    {
        self.command = command;
        self.going = true;
    }

    /// Moves the room for the keys of a retrieval out, with room for at least one.
    pub(crate) fn take_room(&mut self) -> Result<Vec<Blob>, NoMemory>
        ensures same { self.new ≡ self.old }
        ensures empty { IfOk result (λ room. room.items ≡ []) }
        ensures room { IfOk result (λ room. vec_len room < vec_capacity room) }
    {
        self.room.clear();
        if self.room.reserve(1).is_err() {
            return Err(NoMemory);
        }
        let none = Vec::new(*self.room.allocator());
        Ok(mem::replace(&mut self.room, none))
    }

    /// Moves the room for the keys of a retrieval back.
    pub(crate) fn give_room(&mut self, room: Vec<Blob>)
        ensures same { self.new ≡ self.old }
    {
        drop(mem::replace(&mut self.room, room));
    }

    /// Ends the command in progress.
    pub(crate) fn end(&mut self)
        requires going { is_going self.old ≡ true }
        ensures value { self.new ≡ no_frame }
    {
        self.going = false;
        drop(mem::replace(&mut self.frame, None));
        if let Command::Get { keys, unique: _ } = &mut self.command {
            keep_room(keys, &mut self.room);
        }
    }
}

// Empties a list of keys, and keeps its room, unless that is for many keys.
fn keep_room(keys: &mut Keys, room: &mut Vec<Blob>) {
    let none = Keys::new(*room.allocator());
    let mut list = mem::replace(keys, none).into_vec();
    list.clear();
    if list.capacity() <= KEY_ROOM {
        drop(mem::replace(room, list));
    } else {
        drop(list);
    }
}
