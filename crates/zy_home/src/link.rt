//! A connection of a home without its block.
ghost use Rattle.std.specs.Prelude.{◌≡◌, ◌≢◌, ◌+◌, [], ◌∷◌, ◌++◌, true, false, IfOk, OnOk};
ghost use Rattle.zy_conn.specs.Work.{has_event};
ghost use Rattle.zy_conn.specs.Block.{label_in};
ghost use Rattle.zy_rx.specs.Session.{Sessions, with_bytes, with_close};
ghost use Rattle.zy_home.specs.Link.{IsFor, IsFresh, LinkStands, SameLink, StandsOn, TakesIn, conn_of};
ghost use Rattle.zy_home.specs.Offer.{Offers, IsFilled, IsUnoffered, WaitsBehind, WaitsFull};
ghost use Rattle.zy_home.specs.Idle.{IsIdleWith, due_mark, mark_in};
ghost use Rattle.zy_home.specs.Place.{MeetsInlet, KnowsAll};

use std::alloc::Global;
use std::marker::Model;
use zy_base::{Blob, NoMemory};
use zy_calls::Output;
use zy_conn::{Block, EventInlet};
use zy_frame::{Frame, Framer, Frames};
use zy_rx::Rx;

/// What a home keeps of a connection besides its block: the end of its event ring to which frames
/// are offered, its framer, the frames that wait, the ends of its closed sessions, and its output.
#[derive(Drop)]
pub struct Link {
    alloc: Global,
    inlet: EventInlet,
    framer: Framer,
    waiting: Frames,
    ends: Vec<u64>,
    cut: u64,
    output: Output,
}

impl Model for Link {
    ghost use Rattle.zy_home.specs.Link.{Link};

    ghost Value = { Link };

    ghost view = { λ l. record {
      inlet = l.inlet;
      framer = l.framer;
      waiting = l.waiting;
      ends = l.ends.items;
      cut = l.cut;
      output = l.output;
    } };
}

impl Link {
    /// Makes the connection of this number, which has received nothing. Takes no memory.
    pub fn new(alloc: Global, conn: u32, inlet: EventInlet) -> Link
        ensures value { IsFresh conn inlet result }
    {
        Link {
            alloc,
            inlet,
            framer: Framer::new(alloc),
            waiting: Frames::new(alloc),
            ends: Vec::new(alloc),
            cut: 0,
            output: Output::new(alloc, conn),
        }
    }

    /// Returns the number of the connection.
    pub fn conn(&self) -> u32
        ensures value { result ≡ conn_of self.now }
    {
        self.output.conn()
    }

    /// Checks whether a frame waits.
    pub fn is_waiting(&self) -> bool
        ensures some { result ≡ true → self.now.waiting ≢ [] }
        ensures none { result ≡ false → self.now.waiting ≡ [] }
    {
        self.waiting.len() > 0
    }

    /// Receives an item of this connection: the bytes of a segment are cut, and the new frames are
    /// offered or wait; a close ends the session, and a new one begins. If the answer is `false`, no
    /// frame was offered and none waits.
    #[inline(always)]
    pub fn receive(&mut self, item: Rx) -> Result<bool, NoMemory>
        requires own { IsFor (conn_of self.old) item }
        ensures stands { OnOk result (TakesIn item self.old self.new) }
        ensures none { IfOk result (λ got. got ≡ false → IsUnoffered self.old self.new) }
        ensures same { SameLink self.old self.new }
        ensures output { self.new.output ≡ self.old.output }
    {
        match item {
            Rx::Segment { conn: _, bytes } => self.segment(bytes),
            Rx::Close { conn: _ } => self.close(),
            Rx::End => Ok(true),
        }
    }
}

impl Link {
    // Cuts the next bytes of the session. If they are exactly one request, they are moved into its frame.
    #[inline(always)]
    fn segment(&mut self, bytes: Blob) -> Result<bool, NoMemory>
        ensures stands { OnOk result ((s : Sessions) → LinkStands self.old s
            → LinkStands self.new (with_bytes bytes s)) }
        ensures none { IfOk result (λ got. got ≡ false → IsUnoffered self.old self.new) }
        ensures same { SameLink self.old self.new }
        ensures output { self.new.output ≡ self.old.output }
    {
        match self.framer.single_frame(bytes) {
            Ok(frame) => {
                offer_or_keep(&mut self.inlet, &mut self.waiting, frame)?;
                self.cut = counted(self.cut, 1)?;
                Ok(true)
            }
            Err(bytes) => {
                let cut = self.feed(&bytes);
                drop(bytes);
                cut
            }
        }
    }

    // Cuts the next bytes of the session. The new frames wait.
    fn feed(&mut self, bytes: &Blob) -> Result<bool, NoMemory>
        ensures stands { OnOk result ((s : Sessions) → LinkStands self.old s
            → LinkStands self.new (with_bytes bytes.now s)) }
        ensures none { IfOk result (λ got. got ≡ false → self.new.waiting ≡ []) }
        ensures kept { (self.new.inlet ≡ self.old.inlet) × (self.new.output ≡ self.old.output) }
    {
        let before = self.waiting.len();
        self.framer.feed(bytes, &mut self.waiting)?;
        let given = self.waiting.len().saturating_sub(before) as u64;
        self.cut = counted(self.cut, given)?;
        Ok(self.is_waiting())
    }

    // Ends the session, and begins a new one.
    fn close(&mut self) -> Result<bool, NoMemory>
        ensures stands { OnOk result ((s : Sessions) → LinkStands self.old s → LinkStands self.new (with_close s)) }
        ensures none { IfOk result (λ got. got ≡ false → self.new.waiting ≡ []) }
        ensures kept { (self.new.inlet ≡ self.old.inlet) × (self.new.output ≡ self.old.output) }
    {
        match self.ends.push(self.cut) {
            Ok(()) => {}
            Err(_) => return Err(NoMemory),
        }
        self.framer = Framer::new(self.alloc);
        Ok(self.is_waiting())
    }

    /// Offers the frames that wait, the first one first, while there is room. Takes no memory.
    #[inline(always)]
    pub fn offer_waiting(&mut self)
        ensures same { SameLink self.old self.new × (self.new.output ≡ self.old.output) }
        ensures stands { StandsOn self.old self.new }
        ensures filled { IsFilled self.old.inlet self.new.inlet self.new.waiting }
        ensures full { WaitsFull self.new }
    {
        offer_all(&mut self.inlet, &mut self.waiting);
    }

    /// Settles the connection's block: moves its texts to the output, shows the block and the inlet
    /// what the other did, offers the frames that wait, and returns whether the block then has an
    /// event. If it has none, it is idle.
    pub fn settle(&mut self, block: &mut Block) -> Result<bool, NoMemory>
        requires mark { mark_in block.old ≡ due_mark self.old }
        ensures event { IfOk result (λ event. event ≡ has_event block.new.work) }
        ensures mark { OnOk result (mark_in block.new ≡ due_mark self.new) }
        ensures idle { IfOk result (λ event. event ≡ false → IsIdleWith block.new.work self.new) }
        ensures met { OnOk result (MeetsInlet block.old block.new) }
        ensures knows { OnOk result (KnowsAll self.new block.new) }
        ensures behind { OnOk result (WaitsBehind self.new block.new) }
        ensures stands { OnOk result (StandsOn self.old self.new) }
        ensures same { SameLink self.old self.new }
        ensures label { label_in block.new ≡ label_in block.old }
    {
        block.send_to(&mut self.output)?;
        block.meet(&mut self.inlet);
        self.offer_waiting();
        block.meet(&mut self.inlet);
        Ok(block.has_event())
    }

    /// Returns the output of the connection, and the ends of its closed sessions. Takes no memory.
    pub fn into_end(self) -> (Output, Vec<u64>)
        ensures output { result.0 ≡ self.output }
        ensures ends { result.1.items ≡ self.ends }
    {
        let Link {
            alloc: _,
            inlet: _,
            framer: _,
            waiting: _,
            ends,
            cut: _,
            output,
        } = self;
        (output, ends)
    }
}

// Adds to the number of frames that were cut.
fn counted(cut: u64, given: u64) -> Result<u64, NoMemory>
    ensures value { IfOk result (λ sum. sum ≡ cut + given) }
{
    match cut.checked_add(given) {
        Some(sum) => Ok(sum),
        None => Err(NoMemory),
    }
}

// Offers a frame, if none waits before it and there is room. Otherwise it waits; if allocation fails, it
// is dropped.
#[inline(always)]
fn offer_or_keep(inlet: &mut EventInlet, waiting: &mut Frames, frame: Frame) -> Result<(), NoMemory>
    ensures ok { OnOk result (Offers inlet.old (waiting.old ++ frame ∷ []) inlet.new waiting.new) }
    ensures ring { inlet.new.ring ≡ inlet.old.ring }
{
    if waiting.len() == 0 && inlet.has_room() {
        inlet.offer_known(frame);
        return Ok(());
    }
    match waiting.push(frame) {
        Ok(()) => Ok(()),
        Err((frame, e)) => {
            drop(frame);
            Err(e)
        }
    }
}

// Offers the frames that wait, until there is no room or none is left.
#[inline(always)]
fn offer_all(inlet: &mut EventInlet, waiting: &mut Frames)
    ensures ring { inlet.new.ring ≡ inlet.old.ring }
    ensures offers { Offers inlet.old waiting.old inlet.new waiting.new }
    ensures filled { IsFilled inlet.old inlet.new waiting.new }
    ensures full { waiting.new ≢ [] → inlet.new.free ≡ 0 }
{
    while waiting.len() > 0 {
        if !inlet.has_room() {
            return;
        }
        let Some(frame) = waiting.next() else {
            return;
        };
        inlet.offer_known(frame);
    }
}
