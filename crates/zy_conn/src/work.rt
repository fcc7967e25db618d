//! A connection's work: all of a block except its holds.
ghost use Rattle.std.specs.Prelude.{◌≡◌, ◌≢◌, ◌+◌, ◌≤◌, [], ◌++◌, length, IfOk, IfErr, OnOk, OnErr, MatchBool};
ghost use Rattle.zy_calls.specs.Output.{with_batch};
ghost use Rattle.mc_store.specs.Pass.{passed};
ghost use Rattle.zy_rx.specs.Ring.{offering};
ghost use Rattle.zy_conn.specs.Work.{work_of_pass, idle, has_event, texts_taken, batch_waiting};
ghost use Rattle.zy_conn.specs.Kept.{KeepsCommands};

mod direct;
mod run;
mod steps;

use crate::begun::Begun;
use mc_calls::CallReply;
use mc_store::Pass;
use std::alloc::Global;
use std::marker::Model;
use std::mem;
use zy_base::NoMemory;
use zy_calls::{Batch, Output, Room};
use zy_frame::Frame;
use zy_rx::{RingInlet, RingOutlet, both_ends, ring};

/// The end of a block's event ring that frames are offered to, also while another thread holds the
/// block.
pub type EventInlet = RingInlet<Frame>;

// The slots of an event ring.
const EVENTS: usize = 64;

/// All of a block except its holds. Contracts see its pass, the frames taken from its event ring
/// and those known, the command in progress, the number of finished commands, and the texts that
/// wait.
#[derive(Drop)]
pub(crate) struct Work {
    alloc: Global,
    pass: Pass,
    frames: RingOutlet<Frame>,
    begun: Begun,
    // The replies so far to the command in progress. The list is used again for each command.
    replies: Vec<CallReply>,
    // The number of commands whose texts were taken.
    shown: u64,
    batch: Batch,
}

impl Model for Work {
    ghost use Rattle.zy_conn.specs.Work.{Worked, start_of, work_of_pass};
    ghost use Rattle.zy_conn.specs.Kept.{KeepsCommands};

    ghost Value = { Worked };

    ghost view = { λ w. work_of_pass w.pass w.frames.ring w.frames.taken w.frames.known
        (start_of w.pass.table.slots w.begun w.replies.items) w.batch.finished w.shown w.batch.texts };

    ghost invariant = { λ w. KeepsCommands
        (work_of_pass w.pass w.frames.ring w.frames.taken w.frames.known
        (start_of w.pass.table.slots w.begun w.replies.items) w.batch.finished w.shown w.batch.texts) };
}

impl Work {
    /// Makes the work of a pass without calls: no frame was offered, and no command is in progress.
    /// If allocation fails, the pass is handed back.
    pub(crate) fn new(alloc: Global, pass: Pass) -> Result<(Work, EventInlet), (Pass, NoMemory)>
        requires empty { pass.calls ≡ [] }
        ensures work { IfOk result (λ made. made.0
            ≡ work_of_pass pass made.1.ring [] [] idle 0 0 []) }
        ensures inlet { IfOk result (λ made. made.1 ≡ offering made.1.ring [] 64) }
        ensures returned { IfErr result (λ e. e.0 ≡ pass) }
    {
        match ring(alloc, EVENTS) {
            Ok((inlet, frames)) => Ok((
                Work {
                    alloc,
                    pass,
                    frames,
                    begun: Begun::new(alloc),
                    replies: Vec::new(alloc),
                    shown: 0,
                    batch: Batch::new(alloc, 0),
                },
                inlet,
            )),
            Err(e) => Err((pass, e)),
        }
    }

    /// Returns the connection.
    pub(crate) fn conn(&self) -> u32
        ensures value { result ≡ self.now.conn }
    {
        self.pass.conn()
    }

    /// Returns the number of finished commands.
    pub(crate) fn finished(&self) -> u64
        ensures value { result ≡ self.now.finished }
    {
        self.batch.finished()
    }

    /// Checks whether a command is in progress or a frame is known.
    pub(crate) fn has_event(&self) -> bool
        ensures value { result ≡ has_event self.now }
    {
        self.begun.is_going() || self.begun.is_alone() || self.frames.known() > 0
    }

    /// Shows each end of the event ring what the other did.
    pub(crate) fn meet(&mut self, inlet: &mut EventInlet)
        requires ring { inlet.old.ring ≡ self.old.ring }
        ensures work { self.new ≡ record self.old { known = self.new.known } }
        ensures inlet { inlet.new ≡ record inlet.old { free = inlet.new.free } }
        ensures all { inlet.new.sent ≡ self.new.taken ++ self.new.known }
        ensures room { 64 + length self.new.taken ≤ length inlet.new.sent + inlet.new.free }
    {
        both_ends(inlet, &mut self.frames);
    }

    /// Looks for frames, and returns whether one is known.
    pub(crate) fn looks(&mut self) -> bool
        ensures work { self.new ≡ record self.old { known = self.new.known } }
        ensures known { MatchBool result (self.new.known ≢ []) (self.new.known ≡ []) }
    {
        !self.frames.is_empty()
    }

    /// Takes the texts that wait, with the number of finished commands; no text is left.
    pub(crate) fn take_batch(&mut self) -> Batch
        ensures batch { (result.texts ≡ self.old.batch) × (result.finished ≡ self.old.finished) }
        ensures work { self.new ≡ record self.old { shown = self.old.finished; batch = [] } }
        ensures texts { texts_taken self.new ≡ texts_taken self.old ++ self.old.batch }
    {
        let finished = self.batch.finished();
        self.shown = finished;
        mem::replace(&mut self.batch, Batch::new(self.alloc, finished))
    }

    /// Moves the texts that wait to an output, with the number of finished commands; no text is left,
    /// and room of up to 64 KiB is kept. If allocation fails, nothing has changed.
    pub(crate) fn send_to(&mut self, output: &mut Output) -> Result<(), NoMemory>
        ensures output { OnOk result (output.new ≡ with_batch output.old (batch_waiting self.old)) }
        ensures work { OnOk result (self.new ≡ record self.old { shown = self.old.finished; batch = [] }) }
        ensures texts { OnOk result (texts_taken self.new ≡ texts_taken self.old ++ self.old.batch) }
        ensures err { OnErr result ((self.new ≡ self.old) × (output.new ≡ output.old)) }
    {
        output.take_texts(&mut self.batch)?;
        self.shown = self.batch.finished();
        Ok(())
    }

    /// Takes this room for its texts, if it has none.
    pub(crate) fn take_room(&mut self, room: &mut Room)
        ensures same { self.new ≡ self.old }
        ensures room { room.new ≡ room.old }
    {
        self.batch.take_room(room);
    }

    /// Gives its room back, if no text waits and `room` is empty.
    pub(crate) fn give_room(&mut self, room: &mut Room)
        ensures same { self.new ≡ self.old }
        ensures room { room.new ≡ room.old }
    {
        self.batch.give_room(room);
    }

    /// Returns the pass, with all that the work has done.
    pub(crate) fn into_pass(self) -> Pass
        ensures pass { result ≡ passed self.table self.conn self.calls self.trace }
        ensures kept { KeepsCommands self }
    {
        let Work {
            alloc: _,
            pass,
            frames,
            begun,
            replies,
            shown: _,
            batch,
        } = self;
        drop(frames);
        drop(begun);
        drop(replies);
        drop(batch);
        pass
    }
}
