//! A command that is begun, and the replies to its first calls.
ghost use Rattle.std.specs.Prelude.{◌≡◌, ◌↔◌, ◌<◌, ◌≤◌, true, false, [], ◌∷◌, ◌++◌, length, Some, IfOk, OnOk, OnErr};
ghost use Rattle.std.specs.List.{slice_get};
ghost use Rattle.mc_calls.specs.Kind.{MayAnswer};
ghost use Rattle.mc_parse.specs.declared.shard_call.ShardCall.{ShardCall};
ghost use Rattle.mc_parse.specs.Calls.{due_at, due_of, tag_of};
ghost use Rattle.mc_reply.specs.Text.{text};
ghost use Rattle.zy_check.specs.Begun.{asked_in, IsCallAt};

use mc_calls::{Call, CallReply, Replies};
use mc_history::EntryRef;
use mc_parse::{Command, ShardCall, call_at};
use mc_reply::reply_text;
use std::marker::Model;
use std::mem;
use zy_base::{Blob, NoMemory};

/// A command, the replies to its first calls, and the call after these, if one is left.
#[derive(Drop)]
pub struct Begun {
    command: Command,
    shards: u32,
    next: Option<ShardCall>,
    replies: Replies,
}

impl Model for Begun {
    ghost use Rattle.zy_check.specs.Begun.{Begun, IsPartlyAnswered};

    ghost Value = { Begun };

    ghost view = { λ b. record { command = b.command; shards = b.shards; replies = b.replies } };

    ghost invariant = { λ b. IsPartlyAnswered b.command b.shards b.next b.replies };
}

impl Begun {
    /// Makes a command, before any of its calls is answered. Its replies will be in this room.
    pub fn new(command: Command, shards: u32, room: Vec<CallReply>) -> Result<Begun, NoMemory>
        requires some { 1 ≤ shards }
        requires limit { shards ≤ 256 }
        requires empty { room.items ≡ [] }
        ensures value { IfOk result (λ begun. begun
            ≡ record { command = command; shards = shards; replies = [] }) }
    {
        match call_at(&command, 0, shards) {
            Ok(next) => Ok(Begun {
                command,
                shards,
                next,
                replies: Replies::from_vec(room),
            }),
            Err(refused) => {
                drop(command);
                drop(room);
                Err(refused)
            }
        }
    }

    /// Checks whether each of its calls is answered.
    pub fn is_done(&self) -> bool
        ensures done { result ≡ true → length (asked_in self.now) ≡ length self.now.replies }
        ensures more { result ≡ false → length self.now.replies < length (asked_in self.now) }
    {
        match &self.next {
            Some(_) => false,
            None => true,
        }
    }

    /// Checks whether an entry is its next call, as the command with this index of a connection.
    pub fn is_due(&self, entry: &EntryRef<'_>, conn: u32, index: u64) -> bool
        ensures exact { result ≡ true ↔ slice_get (due_at self.now.shards conn index self.now.command)
            (length self.now.replies) ≡ Some (due_of entry.now) }
    {
        match &self.next {
            Some(call) => is_call(entry, conn, index, self.replies.items().len(), call),
            None => false,
        }
    }

    /// Returns its next call.
    pub fn call(&self) -> &Call
        requires more { length self.now.replies < length (asked_in self.now) }
        ensures value { IsCallAt (asked_in self.now) (length self.now.replies) result.now }
    {
        match &self.next {
            Some(next) => &next.call,
            None => unreachable!(),
        }
    }

    /// Takes the reply to its next call.
    pub fn answer(&mut self, reply: CallReply) -> Result<(), NoMemory>
        requires more { length self.old.replies < length (asked_in self.old) }
        requires kind { (call : ShardCall)
            → slice_get (asked_in self.old) (length self.old.replies) ≡ Some call
            → MayAnswer call.call reply }
        ensures ok { OnOk result (self.new
            ≡ record self.old { replies = self.old.replies ++ reply ∷ [] }) }
        ensures err { OnErr result (self.new ≡ self.old) }
    {
        let part = self.replies.items().len();
        let next = match call_at(&self.command, part + 1, self.shards) {
            Ok(next) => next,
            Err(refused) => {
                drop(reply);
                return Err(refused);
            }
        };
        match self.replies.push(reply) {
            Ok(()) => {
                drop(mem::replace(&mut self.next, next));
                Ok(())
            }
            Err((reply, refused)) => {
                drop(reply);
                drop(next);
                Err(refused)
            }
        }
    }

    /// Appends its text.
    pub fn add_text(&self, out: &mut Blob) -> Result<(), NoMemory>
        requires done { length (asked_in self.now) ≡ length self.now.replies }
        ensures ok { OnOk result (out.new ≡ out.old ++ text self.now.command self.now.replies) }
    {
        reply_text(out, &self.command, &self.replies)
    }

    /// Returns the room of its replies.
    pub fn into_room(self) -> Vec<CallReply> {
        drop(self.command);
        drop(self.next);
        self.replies.into_vec()
    }
}

/// Checks whether an entry is this part of a command.
pub fn is_call(entry: &EntryRef<'_>, conn: u32, index: u64, part: usize, call: &ShardCall) -> bool
    ensures exact { result ≡ true
        ↔ due_of entry.now ≡ record { tag = tag_of conn index part; call = call.now } }
{
    let tag = entry.tag();
    tag.conn == conn
        && tag.index == index
        && tag.part as usize == part
        && entry.shard() == call.shard
        && entry.call_is(&call.call)
}
