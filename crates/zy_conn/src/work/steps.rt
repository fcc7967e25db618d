//! The steps of a connection's work. A step whose allocation fails leaves the work as it was.
ghost use Rattle.std.specs.Prelude.{◌≡◌, ◌≢◌, ◌+◌, ◌≤◌, OnOk, OnErr, IfOk};
ghost use Rattle.zy_calls.specs.Batch.{with_text};
ghost use Rattle.mc_reply.specs.Text.{text};
ghost use Rattle.mc_reply.specs.Answers.{AnswerCommand};
ghost use Rattle.zy_conn.specs.Work.{idle};
ghost use Rattle.zy_conn.specs.Step.{IsGoing, IsAllMade, StepsOn, MadeFrom};
ghost use Rattle.zy_conn.specs.Direct.{BeginsTo};

use super::Work;
use super::direct::{Begins, start};
use crate::answer::Answer;
use crate::calling::{Made, next_call};
use crate::hold_end::HoldEnd;
use mc_calls::Replies;
use mc_parse::Command;
use mc_store::StoreTable;
use std::mem;
use zy_base::{COMMAND_LIMIT, Gate, NoMemory};
use zy_calls::Batch;

impl Work {
    /// Begins the next command if none is in progress, or says why it did not. It passes the gate. A
    /// retrieval of one key or a `set` is finished, if its call is made.
    pub(crate) fn begin<G: Gate>(
        &mut self,
        store: &StoreTable,
        gate: &G,
        core: u32,
    ) -> Result<Begins, NoMemory>
        requires table { self.old.table ≡ store.now.id }
        ensures goes { StepsOn self.old self.new }
        ensures begun { IfOk result (BeginsTo self.old self.new) }
        ensures err { OnErr result (self.new.finished ≡ self.old.finished) }
        ensures shards { store.now.shards ≡ self.new.table.slots }
    {
        let shards = store.shards();
        if self.begun.is_going() {
            return Ok(Begins::Going);
        }
        if self.begun.is_alone() {
            self.read_again(shards)?;
            return Ok(Begins::Going);
        }
        if self.frames.is_empty() {
            return Ok(Begins::Stopped(HoldEnd::Drained));
        }
        let index = self.batch.finished();
        if index == COMMAND_LIMIT {
            return Ok(Begins::Stopped(HoldEnd::Spent));
        }
        gate.pass(core, self.pass.conn(), index);
        let frame = self.frames.take_known();
        self.replies.clear();
        start(
            self.alloc,
            frame,
            store,
            &mut self.pass,
            &mut self.begun,
            &mut self.replies,
            &mut self.batch,
        )
    }

    // Reads the command of the frame that is begun, after an allocation for it has failed.
    fn read_again(&mut self, shards: u32) -> Result<(), NoMemory>
        requires shards { shards ≡ self.old.table.slots }
        requires some { 1 ≤ shards }
        requires few { shards ≤ 256 }
        ensures goes { StepsOn self.old self.new }
        ensures finished { self.new.finished ≡ self.old.finished }
        ensures going { OnOk result (self.old.begun ≢ idle → IsGoing self.new.begun) }
    {
        match self.begun.take_frame() {
            Some(frame) => {
                self.replies.clear();
                self.begun.read(self.alloc, frame)
            }
            None => Ok(()),
        }
    }

    /// Makes the next call of the command in progress.
    pub(crate) fn call(&mut self, store: &StoreTable) -> Result<Made, NoMemory>
        requires table { self.old.table ≡ store.now.id }
        requires shards { store.now.shards ≡ self.old.table.slots }
        requires going { IsGoing self.old.begun }
        ensures goes { StepsOn self.old self.new }
        ensures finished { self.new.finished ≡ self.old.finished }
        ensures going { IsGoing self.new.begun }
        ensures made { IfOk result (MadeFrom self.old self.new) }
    {
        next_call(
            &mut self.pass,
            store,
            self.batch.finished(),
            self.begun.command(),
            &mut self.replies,
        )
    }

    /// Finishes the command in progress: its text is appended to the batch.
    pub(crate) fn finish(&mut self) -> Result<(), NoMemory>
        requires whole { IsAllMade self.old.begun }
        ensures goes { StepsOn self.old self.new }
        ensures ok { OnOk result ((self.new.finished ≡ self.old.finished + 1) × (self.new.begun ≡ idle)) }
        ensures err { OnErr result (self.new.finished ≡ self.old.finished) }
    {
        let command = self.begun.command();
        let replies = Replies::from_vec(mem::replace(&mut self.replies, Vec::new(self.alloc)));
        let sent = send(&mut self.batch, command, &replies);
        self.replies = replies.into_vec();
        sent?;
        self.begun.end();
        self.replies.clear();
        let finished = self.batch.finished();
        self.batch.set_finished(finished + 1);
        Ok(())
    }
}

// Appends the text of a command with its replies to the batch.
fn send(batch: &mut Batch, command: &Command, replies: &Replies) -> Result<(), NoMemory>
    requires answers { AnswerCommand command.now replies.now }
    ensures ok { OnOk result (batch.new ≡ with_text batch.old (text command.now replies.now)) }
    ensures err { OnErr result (batch.new ≡ batch.old) }
{
    batch.send_by(&Answer { command, replies })
}
