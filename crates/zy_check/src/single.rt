//! A command with one call, which is kept instead of it.
ghost use Rattle.std.specs.Prelude.{◌≡◌, ◌↔◌, ◌<◌, ◌≤◌, true, false, [], ◌∷◌, ◌++◌, length, Some, IfOk, IfErr, OnOk};
ghost use Rattle.std.specs.List.{slice_get};
ghost use Rattle.mc_calls.specs.Kind.{MayAnswer};
ghost use Rattle.mc_parse.specs.declared.command.Command.{Command};
ghost use Rattle.mc_parse.specs.declared.command.Command.TheVariants.{Get};
ghost use Rattle.mc_parse.specs.declared.shard_call.ShardCall.{ShardCall};
ghost use Rattle.mc_parse.specs.Calls.{due_at, due_of};
ghost use Rattle.mc_parse.specs.OneSet.{IsSetBy};
ghost use Rattle.mc_reply.specs.Text.{text};
ghost use Rattle.zy_frame.specs.Frame.{command_of};
ghost use Rattle.zy_check.specs.Begun.{asked_in, IsCallAt};

use crate::begun::is_call;
use mc_calls::{Call, CallReply, shard_of};
use mc_history::EntryRef;
use mc_parse::{OneKey, OneSet, ShardCall};
use mc_reply::{got_text, set_text};
use std::marker::Model;
use std::mem;
use zy_base::{Blob, NoMemory};
use zy_frame::{Frame, one_key_of, one_set_of};

/// A retrieval of one key or a `set`: its call, and the reply to it, if there is one yet. Key and
/// value are parts of the frame. Contracts see the command that is begun.
#[derive(Drop)]
pub struct Single {
    shards: u32,
    next: ShardCall,
    // Whether a retrieval asks for CAS values, or a `set` is quiet.
    flag: bool,
    reply: Option<CallReply>,
}

impl Model for Single {
    ghost use Rattle.zy_check.specs.Begun.{Begun};
    ghost use Rattle.zy_check.specs.Single.{single_begun, IsSingle};

    ghost Value = { Begun };

    ghost view = { λ s. single_begun s.shards s.next.call s.flag s.reply };

    ghost invariant = { λ s. IsSingle s.shards s.next s.flag s.reply };
}

impl Single {
    /// Makes it of a frame. If the command is another, or allocation fails, the frame is handed back.
    pub fn of_frame(frame: Frame, shards: u32) -> Result<Single, Frame>
        requires some { 1 ≤ shards }
        ensures value { IfOk result (λ single. single
            ≡ record { command = command_of frame; shards = shards; replies = [] }) }
        ensures returned { IfErr result (λ back. back ≡ frame) }
    {
        match one_key_of(&frame) {
            Ok(Some(one)) => {
                drop(frame);
                Ok(Single::get(one, shards))
            }
            _ => match one_set_of(frame, shards) {
                Ok(one) => Ok(Single::set(one, shards)),
                Err((frame, _)) => Err(frame),
            },
        }
    }

    // Makes it of a retrieval of one key.
    fn get(one: OneKey, shards: u32) -> Single
        requires some { 1 ≤ shards }
        ensures value { result ≡ record { command = Get (one.key ∷ []) one.unique; shards = shards; replies = [] } }
    {
        let OneKey { key, unique } = one;
        let shard = shard_of(key.bytes(), shards);
        Single {
            shards,
            next: ShardCall {
                shard,
                call: Call::Get { key },
            },
            flag: unique,
            reply: None,
        }
    }

    // Makes it of a `set`.
    fn set(one: OneSet, shards: u32) -> Single
        requires is { (command : Command) × IsSetBy shards command one.next one.quiet }
        ensures value { (command : Command) → IsSetBy shards command one.next one.quiet
            → result ≡ record { command = command; shards = shards; replies = [] } }
    {
        let OneSet { next, quiet } = one;
        Single {
            shards,
            next,
            flag: quiet,
            reply: None,
        }
    }

    /// Checks whether its call is answered.
    pub fn is_done(&self) -> bool
        ensures done { result ≡ true → length (asked_in self.now) ≡ length self.now.replies }
        ensures more { result ≡ false → length self.now.replies < length (asked_in self.now) }
    {
        self.reply.is_some()
    }

    /// Checks whether an entry is its next call, as the command with this index of a connection.
    pub fn is_due(&self, entry: &EntryRef<'_>, conn: u32, index: u64) -> bool
        ensures exact { result ≡ true ↔ slice_get (due_at self.now.shards conn index self.now.command)
            (length self.now.replies) ≡ Some (due_of entry.now) }
    {
        match &self.reply {
            None => is_call(entry, conn, index, 0, &self.next),
            Some(_) => false,
        }
    }

    /// Returns its call, which is not answered.
    pub fn call(&self) -> &Call
        requires more { length self.now.replies < length (asked_in self.now) }
        ensures value { IsCallAt (asked_in self.now) (length self.now.replies) result.now }
    {
        &self.next.call
    }

    /// Takes the reply to its call.
    pub fn answer(&mut self, reply: CallReply)
        requires more { length self.old.replies < length (asked_in self.old) }
        requires kind { (call : ShardCall)
            → slice_get (asked_in self.old) (length self.old.replies) ≡ Some call
            → MayAnswer call.call reply }
        ensures ok { self.new ≡ record self.old { replies = self.old.replies ++ reply ∷ [] } }
    {
        drop(mem::replace(&mut self.reply, Some(reply)));
    }

    /// Appends its text.
    pub fn add_text(&self, out: &mut Blob) -> Result<(), NoMemory>
        requires done { length (asked_in self.now) ≡ length self.now.replies }
        ensures ok { OnOk result (out.new ≡ out.old ++ text self.now.command self.now.replies) }
    {
        match &self.reply {
            Some(reply) => match &self.next.call {
                Call::Get { key } => got_text(out, key, self.flag, reply),
                _ => out.append(set_text(self.flag)),
            },
            None => unreachable!(),
        }
    }
}
