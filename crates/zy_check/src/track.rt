//! The state of a connection.
ghost use Rattle.std.specs.Prelude.{◌≡◌, ◌↔◌, ◌+◌, ◌^◌, ◌<◌, ◌≤◌, ◌++◌, ◌∷◌, ℕ, true, false};
ghost use Rattle.std.specs.Prelude.{List, [], length, None, Some, IfOk, OnOk, OnErr};
ghost use Rattle.std.specs.List.{slice_get};
ghost use Rattle.mc_calls.specs.Kind.{MayAnswer};
ghost use Rattle.zy_capture.specs.Streams.{sessions_of};
ghost use Rattle.mc_parse.specs.declared.shard_call.ShardCall.{ShardCall};
ghost use Rattle.mc_parse.specs.Calls.{Due, due_at, due_of};
ghost use Rattle.mc_reply.specs.Text.{text};
ghost use Rattle.zy_check.specs.Answered.{has_bytes};
ghost use Rattle.zy_check.specs.Given.{Given, found_output};
ghost use Rattle.zy_check.specs.Cursor.{HasGivenCommands};
ghost use Rattle.zy_check.specs.Comparing.{Finishes};
ghost use Rattle.zy_check.specs.Begun.{Begun, asked_in, IsCallAt};
ghost use Rattle.zy_check.specs.Track.{HasMadeCalls, IsAtCall, IsAtEnd, HasNoCallLeft, with_reply};

use crate::compared::{Compared, Differing};
use crate::cursor::Cursor;
use crate::files::Files;
use crate::in_progress::InProgress;
use mc_calls::{Call, CallReply};
use mc_history::EntryRef;
use std::alloc::Global;
use std::mem;
use zy_base::{Blob, NoMemory};

// The most bytes for which room is kept.
const TEXT_ROOM: usize = 4096;

/// A connection's place in its streams: the session that is read and the place in it, the command
/// in progress, the number of commands before it, how far its outputs were compared, and which of its
/// commands are answered.
#[derive(Drop)]
pub struct Track {
    alloc: Global,
    session: u32,
    cursor: Cursor,
    begun: InProgress,
    commands: u64,
    compared: Compared,
    answered: Vec<bool>,
    // Room for the text of the next command, which that of the last one had.
    text: Blob,
}

impl Track {
    /// Begins at the start of a connection's first session. Takes no memory.
    pub fn new(alloc: Global) -> Track
        ensures none { (g : Given) (conn : ℕ) → HasMadeCalls g conn result [] }
    {
        Track {
            alloc,
            session: 0,
            cursor: Cursor::new(alloc),
            begun: InProgress::none(alloc),
            commands: 0,
            compared: Compared {
                at: 0,
                differing: None,
            },
            answered: Vec::new(alloc),
            text: Blob::new(alloc),
        }
    }

    /// Returns how many commands have all their calls.
    pub fn commands(&self) -> u64
        ensures value { result ≡ self.now.commands }
    {
        self.commands
    }

    /// Returns the first session whose output differs, among those that were read.
    pub fn differing(&self) -> Option<Differing>
        ensures value { result ≡ self.now.compared.differing }
    {
        self.compared.differing
    }

    /// Returns which of the commands that have all their calls are answered.
    pub fn answered(&self) -> &[bool]
        ensures value { result.now ≡ self.now.answered.items }
    {
        self.answered.as_slice()
    }

    /// Goes on to the next call that has no entry, and returns whether there is one. The texts of
    /// the commands before it are compared.
    pub fn go_on(&mut self, files: &Files, conn: u32) -> Result<bool, NoMemory>
        requires within { conn < length files.now.streams }
        ensures kept { OnOk result ((made : List Due) → HasMadeCalls files.now conn self.old made
            → HasMadeCalls files.now conn self.new made) }
        ensures next { IfOk result (λ there. there ≡ true → IsAtCall self.new.begun) }
        ensures end { IfOk result (λ there. there ≡ false → IsAtEnd files.now conn self.new) }
    {
        for _ in 0..u64::MAX {
            if self.begun.is_at_call() {
                return Ok(true);
            }
            self.finish(files, conn)?;
            if !self.begin(files, conn)? {
                return Ok(false);
            }
        }
        Err(NoMemory)
    }

    /// Checks whether an entry is the call that is next.
    pub fn is_due(&self, entry: &EntryRef<'_>, conn: u32) -> bool
        ensures exact { (b : Begun) → self.now.begun ≡ Some b → (result ≡ true
            ↔ slice_get (due_at b.shards conn self.now.commands b.command) (length b.replies)
            ≡ Some (due_of entry.now)) }
    {
        self.begun.is_due(entry, conn, self.commands)
    }

    /// Returns the call that is next.
    pub fn call(&self) -> &Call
        requires next { IsAtCall self.now.begun }
        ensures value { (b : Begun) → self.now.begun ≡ Some b
            → IsCallAt (asked_in b) (length b.replies) result.now }
    {
        self.begun.call()
    }

    /// Takes the reply to the call that is next.
    pub fn answer(&mut self, reply: CallReply) -> Result<(), NoMemory>
        requires next { IsAtCall self.old.begun }
        requires kind { (b : Begun) (call : ShardCall) → self.old.begun ≡ Some b
            → slice_get (asked_in b) (length b.replies) ≡ Some call → MayAnswer call.call reply }
        ensures ok { OnOk result (self.new ≡ record self.old { begun = with_reply self.old.begun reply }) }
        ensures err { OnErr result (self.new ≡ self.old) }
    {
        self.begun.answer(reply)
    }
}

impl Track {
    // Compares the text of the command that is begun, if there is one; all its calls are answered.
    fn finish(&mut self, files: &Files, conn: u32) -> Result<(), NoMemory>
        requires done { HasNoCallLeft self.old.begun }
        ensures kept { OnOk result ((made : List Due) → HasMadeCalls files.now conn self.old made
            → HasMadeCalls files.now conn self.new made) }
        ensures none { OnOk result (self.new.begun ≡ None) }
    {
        if self.begun.is_none() {
            return Ok(());
        }
        let Some(commands) = self.commands.checked_add(1) else {
            return Err(NoMemory);
        };
        self.begun.write_text(&mut self.text)?;
        self.compared.add(
            files.output(conn, self.session),
            self.session,
            self.text.bytes(),
        );
        note(&mut self.answered, self.text.bytes())?;
        self.commands = commands;
        keep_text_room(&mut self.text, self.alloc);
        self.begun.end();
        Ok(())
    }

    // Begins the next command or, if the session has none, the next session. Returns whether there
    // is one.
    fn begin(&mut self, files: &Files, conn: u32) -> Result<bool, NoMemory>
        requires within { conn < length files.now.streams }
        requires none { self.old.begun ≡ None }
        ensures kept { OnOk result ((made : List Due) → HasMadeCalls files.now conn self.old made
            → HasMadeCalls files.now conn self.new made) }
        ensures end { IfOk result (λ there. there ≡ false → IsAtEnd files.now conn self.new) }
    {
        if files.sessions(conn) <= self.session {
            return Ok(false);
        }
        match self.cursor.next(files.stream(conn, self.session))? {
            Some(frame) => self.begun.begin(frame, files.shards())?,
            None => self.end_session(files, conn),
        }
        Ok(true)
    }

    // Ends the session, and goes to the next.
    fn end_session(&mut self, files: &Files, conn: u32)
        requires within { self.old.session < length (sessions_of files.now.streams conn) }
        requires limit { length (sessions_of files.now.streams conn) ≤ 2 ^ 31 }
        ensures session { self.new.session ≡ self.old.session + 1 }
        ensures cursor { (stream : List ℕ) → HasGivenCommands self.new.cursor stream [] }
        ensures same { (self.new.begun ≡ self.old.begun) × (self.new.commands ≡ self.old.commands) }
        ensures answered { self.new.answered ≡ self.old.answered }
        ensures compared { Finishes (found_output files.now conn self.old.session) self.old.session
            self.old.compared self.new.compared }
    {
        self.compared
            .end(files.output(conn, self.session), self.session);
        self.session += 1;
        drop(mem::replace(&mut self.cursor, Cursor::new(self.alloc)));
    }
}

// Lets the room of a text go if it is large.
fn keep_text_room(room: &mut Blob, alloc: Global) {
    if room.bytes().len() > TEXT_ROOM {
        drop(mem::replace(room, Blob::new(alloc)));
    }
}

// Notes whether a command with this text is answered.
fn note(answered: &mut Vec<bool>, text: &[u8]) -> Result<(), NoMemory>
    ensures more { OnOk result (answered.new.items ≡ answered.old.items ++ has_bytes text.now ∷ []) }
{
    answered.push(!text.is_empty())?;
    Ok(())
}
