//! A connection's block.
ghost use Rattle.std.specs.Prelude.{◌≡◌, ◌+◌, ◌<◌, ◌≤◌, [], ◌++◌, length, IfOk, IfErr, OnOk, OnErr};
ghost use Rattle.zy_calls.specs.Output.{with_batch};
ghost use Rattle.mc_store.specs.Pass.{passed};
ghost use Rattle.zy_rx.specs.Ring.{offering};
ghost use Rattle.zy_conn.specs.Work.{work_of_pass, idle, has_event, texts_taken, batch_waiting};
ghost use Rattle.zy_conn.specs.Work.{mark_of};
ghost use Rattle.zy_conn.specs.Kept.{KeepsCommands};
ghost use Rattle.zy_conn.specs.Hold.{AreHolds, HeldTo, IsRecorded};
ghost use Rattle.zy_conn.specs.Block.{blocked};

use crate::hold_end::HoldEnd;
use crate::holding::carry_out;
use crate::work::{EventInlet, Work};
use mc_calls::{Hold, Holds};
use mc_store::{Pass, StoreTable};
use std::alloc::Global;
use std::marker::Model;
use zy_base::{Gate, NoMemory};
use zy_calls::{Batch, Output, Room};
use zy_shuffle::Marked;

/// What travels with a connection: its pass on the store, its events, the command in progress, the
/// texts that wait, and its holds. Contracts see it as its work, the number of cores that there are
/// to hold it, and the list of its holds.
#[derive(Drop)]
pub struct Block {
    // Blocks are passed on often, and their work is large.
    work: Box<Work>,
    cores: u32,
    holds: Vec<Hold>,
}

impl Model for Block {
    ghost use Rattle.zy_conn.specs.Hold.{AreHolds};
    ghost use Rattle.zy_conn.specs.Block.{Blocked, blocked};

    ghost Value = { Blocked };

    ghost view = { λ b. blocked b.work.value b.cores b.holds.items };

    ghost invariant = { λ b. AreHolds b.cores b.work.value.conn b.work.value.finished b.holds.items };
}

impl Marked for Block {
    ghost use Rattle.zy_conn.specs.Work.{Mark, mark_of};
    ghost use Rattle.zy_conn.specs.Block.{label_in};

    ghost Mark = { Mark };

    ghost mark = { λ b. mark_of b.work };

    ghost label = { label_in };
}

impl Block {
    /// Makes the block of a connection that any of 64 cores may hold, with the other end of its
    /// event ring. If allocation fails the pass is handed back. The program calls `among`.
    pub fn new(
        alloc: Global,
        conn: u32,
        pass: Pass,
    ) -> Result<(Block, EventInlet), (Pass, NoMemory)>
        requires conn { pass.conn ≡ conn }
        requires empty { pass.calls ≡ [] }
        ensures block { IfOk result (λ made. made.0 ≡ blocked (work_of_pass pass made.1.ring [] [] idle 0 0 []) 64 []) }
        ensures inlet { IfOk result (λ made. made.1 ≡ offering made.1.ring [] 64) }
        ensures returned { IfErr result (λ e. e.0 ≡ pass) }
    {
        Block::among(alloc, conn, 64, pass)
    }

    /// Makes a block as `new`, for a connection that only cores below `cores` may hold.
    pub fn among(
        alloc: Global,
        conn: u32,
        cores: u32,
        pass: Pass,
    ) -> Result<(Block, EventInlet), (Pass, NoMemory)>
        requires conn { pass.conn ≡ conn }
        requires empty { pass.calls ≡ [] }
        requires few { cores ≤ 64 }
        ensures block { IfOk result
            (λ made. made.0 ≡ blocked (work_of_pass pass made.1.ring [] [] idle 0 0 []) cores []) }
        ensures inlet { IfOk result (λ made. made.1 ≡ offering made.1.ring [] 64) }
        ensures returned { IfErr result (λ e. e.0 ≡ pass) }
    {
        match Work::new(alloc, pass) {
            Ok((work, inlet)) => match Box::new(alloc, work) {
                Ok(work) => Ok((
                    Block {
                        work,
                        cores,
                        holds: Vec::new(alloc),
                    },
                    inlet,
                )),
                Err(refused) => {
                    drop(inlet);
                    Err((refused.value.into_pass(), NoMemory))
                }
            },
            Err(e) => Err(e),
        }
    }

    /// Returns the connection.
    pub fn conn(&self) -> u32
        ensures value { result ≡ self.now.work.conn }
    {
        self.work.conn()
    }

    /// Returns the number of finished commands.
    pub fn finished(&self) -> u64
        ensures value { result ≡ self.now.work.finished }
    {
        self.work.finished()
    }

    /// Checks whether a command is in progress or a frame is known.
    pub fn has_event(&self) -> bool
        ensures value { result ≡ has_event self.now.work }
    {
        self.work.has_event()
    }

    /// Shows each end of the event ring what the other did; the calling thread has both. After it
    /// the block knows every frame, and the inlet every free slot.
    pub fn meet(&mut self, inlet: &mut EventInlet)
        requires ring { inlet.old.ring ≡ self.old.work.ring }
        ensures block { self.new ≡ record self.old { work = record self.old.work { known = self.new.work.known } } }
        ensures inlet { inlet.new ≡ record inlet.old { free = inlet.new.free } }
        ensures all { inlet.new.sent ≡ self.new.work.taken ++ self.new.work.known }
        ensures room { 64 + length self.new.work.taken ≤ length inlet.new.sent + inlet.new.free }
    {
        self.work.meet(inlet)
    }

    /// Takes the texts that wait, with the number of finished commands; no text is left. Takes no
    /// memory. The program calls `send_to`.
    pub fn take_batch(&mut self) -> Batch
        ensures batch { (result.texts ≡ self.old.work.batch) × (result.finished ≡ self.old.work.finished) }
        ensures block { self.new ≡ record self.old {
          work = record self.old.work {
            shown = self.old.work.finished;
            batch = [];
          };
        } }
        ensures texts { texts_taken self.new.work ≡ texts_taken self.old.work ++ self.old.work.batch }
    {
        self.work.take_batch()
    }

    /// Moves the texts that wait to an output, with the number of finished commands; no text is
    /// left. The block keeps their room for more texts, up to 64 KiB. If allocation fails, block
    /// and output are as they were.
    pub fn send_to(&mut self, output: &mut Output) -> Result<(), NoMemory>
        ensures output { OnOk result (output.new ≡ with_batch output.old (batch_waiting self.old.work)) }
        ensures block { OnOk result (self.new ≡ record self.old {
          work = record self.old.work {
            shown = self.old.work.finished;
            batch = [];
          };
        }) }
        ensures texts { OnOk result (texts_taken self.new.work ≡ texts_taken self.old.work ++ self.old.work.batch) }
        ensures err { OnErr result ((self.new ≡ self.old) × (output.new ≡ output.old)) }
    {
        self.work.send_to(output)
    }

    /// Takes this room for its texts, if it has none: a core lends its own to the block that it is to hold.
    pub fn take_room(&mut self, room: &mut Room)
        ensures same { self.new ≡ self.old }
        ensures room { room.new ≡ room.old }
    {
        self.work.take_room(room)
    }

    /// Gives its room back, once its texts were moved to the output: if no text waits and `room` is
    /// empty.
    pub fn give_room(&mut self, room: &mut Room)
        ensures same { self.new ≡ self.old }
        ensures room { room.new ≡ room.old }
    {
        self.work.give_room(room)
    }

    /// Executes commands in order, at most 64, as one of the cores that may hold the block. A hold
    /// that finished commands is recorded; the room for the record is reserved first. If allocation
    /// fails, the calls that were made stay made, and another hold goes on from there.
    pub fn hold<G: Gate>(
        &mut self,
        store: &StoreTable,
        gate: &G,
        core: u32,
    ) -> Result<HoldEnd, NoMemory>
        requires table { self.old.work.table ≡ store.now.id }
        requires core { core < self.old.cores }

        // Why it ends, and what is recorded.
        ensures end { IfOk result (HeldTo self.old.work self.new.work) }
        ensures holds { IsRecorded core self.old self.new }

        // What stays, also if allocation fails.
        ensures table { self.new.work.table ≡ self.old.work.table }
        ensures cores { self.new.cores ≡ self.old.cores }
        ensures mark { mark_of self.new.work ≡ mark_of self.old.work }
        ensures more { self.old.work.finished ≤ self.new.work.finished }
        ensures limit { self.new.work.finished ≤ self.old.work.finished + 64 }
    {
        if self.holds.reserve(1).is_err() {
            return Err(NoMemory);
        }
        let (count, end) = carry_out(&mut *self.work, store, gate, core);
        if count > 0 {
            let conn = self.work.conn();
            self.holds.push_reserved(Hold { core, conn, count });
        }
        end
    }

    /// Returns the pass and the holds, with all that the block has done. Takes no memory.
    pub fn into_parts(self) -> (Pass, Holds)
        ensures pass { result.0 ≡ passed self.work.table self.work.conn self.work.calls self.work.trace }
        ensures holds { result.1 ≡ self.holds }
        ensures kept { KeepsCommands self.work × AreHolds self.cores self.work.conn self.work.finished self.holds }
    {
        let Block {
            work,
            cores: _,
            holds,
        } = self;
        (Box::into_inner(work).into_pass(), Holds::from_vec(holds))
    }
}
