//! The command in progress of a connection.
ghost use Rattle.std.specs.Prelude.{◌≡◌, ◌↔◌, ◌≤◌, true, false, [], length, None, Some, OnOk, OnErr};
ghost use Rattle.std.specs.List.{slice_get};
ghost use Rattle.mc_calls.specs.Kind.{MayAnswer};
ghost use Rattle.mc_parse.specs.declared.shard_call.ShardCall.{ShardCall};
ghost use Rattle.mc_parse.specs.Calls.{due_at, due_of};
ghost use Rattle.mc_reply.specs.Text.{text};
ghost use Rattle.zy_frame.specs.Frame.{command_of};
ghost use Rattle.zy_check.specs.Begun.{Begun, asked_in, IsCallAt};
ghost use Rattle.zy_check.specs.Track.{IsAtCall, HasNoCallLeft, with_reply};

use crate::begun::Begun;
use crate::single::Single;
use mc_calls::{Call, CallReply};
use mc_history::EntryRef;
use std::alloc::Global;
use std::marker::Model;
use std::mem;
use zy_base::{Blob, NoMemory};
use zy_frame::{Frame, meaning};

// The most replies for which room is kept.
const REPLY_ROOM: usize = 128;

/// The command in progress, if there is one. Contracts see that command.
#[derive(Drop)]
pub struct InProgress {
    alloc: Global,
    // If it is a retrieval of one key or a `set`.
    single: Option<Single>,
    // If it is another.
    other: Option<Begun>,
    // Room for the replies to the next one, which those of the last had.
    room: Vec<CallReply>,
}

impl Model for InProgress {
    ghost use Rattle.std.specs.Prelude.{Option};
    ghost use Rattle.zy_check.specs.Begun.{Begun};
    ghost use Rattle.zy_check.specs.Single.{in_progress, IsOnly};

    ghost Value = { Option Begun };

    ghost view = { λ p. in_progress p.single p.other };

    ghost invariant = { λ p. IsOnly p.single p.other };
}

impl InProgress {
    /// Begins with none. Takes no memory.
    pub fn none(alloc: Global) -> InProgress
        ensures none { result ≡ None }
    {
        InProgress {
            alloc,
            single: None,
            other: None,
            room: Vec::new(alloc),
        }
    }

    /// Begins the command of a frame.
    pub fn begin(&mut self, frame: Frame, shards: u32) -> Result<(), NoMemory>
        requires some { 1 ≤ shards }
        requires limit { shards ≤ 256 }
        requires none { self.old ≡ None }
        ensures begun { OnOk result (self.new
            ≡ Some (record { command = command_of frame; shards = shards; replies = [] })) }
    {
        match Single::of_frame(frame, shards) {
            Ok(single) => {
                drop(mem::replace(&mut self.single, Some(single)));
                Ok(())
            }
            Err(frame) => self.begin_other(frame, shards),
        }
    }

    // Begins the command of a frame, whatever it is.
    fn begin_other(&mut self, frame: Frame, shards: u32) -> Result<(), NoMemory>
        requires some { 1 ≤ shards }
        requires limit { shards ≤ 256 }
        requires none { self.old ≡ None }
        ensures begun { OnOk result (self.new
            ≡ Some (record { command = command_of frame; shards = shards; replies = [] })) }
    {
        match meaning(self.alloc, frame) {
            Ok(command) => {
                let room = empty_room(&mut self.room, self.alloc);
                let begun = Begun::new(command, shards, room)?;
                drop(mem::replace(&mut self.other, Some(begun)));
                Ok(())
            }
            Err((frame, refused)) => {
                drop(frame);
                Err(refused)
            }
        }
    }

    /// Checks whether it has a call left.
    pub fn is_at_call(&self) -> bool
        ensures call { result ≡ true → IsAtCall self.now }
        ensures done { result ≡ false → HasNoCallLeft self.now }
    {
        match &self.single {
            Some(single) => !single.is_done(),
            None => match &self.other {
                Some(begun) => !begun.is_done(),
                None => false,
            },
        }
    }

    /// Checks whether an entry is its next call, as the command with this index of a connection.
    pub fn is_due(&self, entry: &EntryRef<'_>, conn: u32, index: u64) -> bool
        ensures exact { (b : Begun) → self.now ≡ Some b → (result ≡ true
            ↔ slice_get (due_at b.shards conn index b.command) (length b.replies) ≡ Some (due_of entry.now)) }
    {
        match &self.single {
            Some(single) => single.is_due(entry, conn, index),
            None => match &self.other {
                Some(begun) => begun.is_due(entry, conn, index),
                None => false,
            },
        }
    }

    /// Returns its next call.
    pub fn call(&self) -> &Call
        requires next { IsAtCall self.now }
        ensures value { (b : Begun) → self.now ≡ Some b → IsCallAt (asked_in b) (length b.replies) result.now }
    {
        match &self.single {
            Some(single) => single.call(),
            None => match &self.other {
                Some(begun) => begun.call(),
                None => unreachable!(),
            },
        }
    }

    /// Takes the reply to its next call.
    pub fn answer(&mut self, reply: CallReply) -> Result<(), NoMemory>
        requires next { IsAtCall self.old }
        requires kind { (b : Begun) (call : ShardCall) → self.old ≡ Some b
            → slice_get (asked_in b) (length b.replies) ≡ Some call → MayAnswer call.call reply }
        ensures ok { OnOk result (self.new ≡ with_reply self.old reply) }
        ensures err { OnErr result (self.new ≡ self.old) }
    {
        match &mut self.single {
            Some(single) => {
                single.answer(reply);
                Ok(())
            }
            None => match &mut self.other {
                Some(begun) => begun.answer(reply),
                None => unreachable!(),
            },
        }
    }

    /// Checks whether there is none.
    pub fn is_none(&self) -> bool
        ensures none { result ≡ true → self.now ≡ None }
        ensures some { result ≡ false → (b : Begun) × self.now ≡ Some b }
    {
        self.single.is_none() && self.other.is_none()
    }

    /// Writes its text, if there is one; all its calls are answered.
    pub fn write_text(&self, out: &mut Blob) -> Result<(), NoMemory>
        requires done { HasNoCallLeft self.now }
        ensures value { OnOk result ((b : Begun) → self.now ≡ Some b → out.new ≡ text b.command b.replies) }
    {
        out.truncate(0);
        match &self.single {
            Some(single) => single.add_text(out),
            None => match &self.other {
                Some(begun) => begun.add_text(out),
                None => Ok(()),
            },
        }
    }

    /// Ends it.
    pub fn end(&mut self)
        ensures none { self.new ≡ None }
    {
        match mem::replace(&mut self.single, None) {
            Some(single) => drop(single),
            None => end_other(&mut self.room, &mut self.other),
        }
    }
}

// Ends a command that is kept as one, if there is one, and keeps the room of its replies.
fn end_other(room: &mut Vec<CallReply>, other: &mut Option<Begun>)
    ensures none { other.new ≡ None }
{
    match mem::replace(other, None) {
        Some(begun) => drop(mem::replace(room, begun.into_room())),
        None => {}
    }
}

// Takes the room of the last replies without them; if it is large, takes none.
fn empty_room(room: &mut Vec<CallReply>, alloc: Global) -> Vec<CallReply>
    ensures empty { result.items ≡ [] }
{
    let mut taken = mem::replace(room, Vec::new(alloc));
    if taken.len() > REPLY_ROOM {
        drop(taken);
        return Vec::new(alloc);
    }
    taken.clear();
    taken
}
