//! Batches: the reply texts of one hold.
ghost use Rattle.std.specs.Prelude.{◌≡◌, ℕ, List, length, OnOk, OnErr, IfErr};
ghost use Rattle.zy_calls.specs.Batch.{Batch, no_text, with_text, with_finished};

use crate::room::Room;
use crate::texts::Texts;
use crate::writes::Writes;
use std::alloc::Global;
use std::marker::Model;
use zy_base::{Blob, NoMemory};

/// The texts that a hold sends, and the number of finished commands of the connection after it.
/// Contracts see it as the list of its texts and that number.
#[derive(Drop)]
pub struct Batch {
    pub(crate) texts: Texts,
    pub(crate) finished: u64,
}

impl Model for Batch {
    ghost use Rattle.zy_calls.specs.Batch.{Batch};

    ghost Value = { Batch };

    ghost view = { λ batch. record { texts = batch.texts; finished = batch.finished } };
}

impl Batch {
    /// Makes a batch without a text. Takes no memory.
    pub fn new(alloc: Global, finished: u64) -> Batch
        ensures value { result ≡ no_text finished }
    {
        Batch {
            texts: Texts::new(alloc),
            finished,
        }
    }

    /// Appends a text; if allocation fails it is handed back.
    pub fn send(&mut self, text: Blob) -> Result<(), (Blob, NoMemory)>
        ensures ok { OnOk result (self.new ≡ with_text self.old text) }
        ensures err { OnErr result (self.new ≡ self.old) }
        ensures returned { IfErr result (λ e. e.0 ≡ text) }
    {
        match self.send_copy(text.bytes()) {
            Ok(()) => {
                drop(text);
                Ok(())
            }
            Err(e) => Err((text, e)),
        }
    }

    /// Appends a copy of a text.
    pub fn send_copy(&mut self, text: &[u8]) -> Result<(), NoMemory>
        ensures ok { OnOk result (self.new ≡ with_text self.old text.now) }
        ensures err { OnErr result (self.new ≡ self.old) }
    {
        self.texts.push(text)
    }

    /// Appends the text that a writer writes, without a copy.
    pub fn send_by<W: Writes>(&mut self, writer: &W) -> Result<(), NoMemory>
        requires ready { W.ready writer.now }
        ensures ok { OnOk result (self.new ≡ with_text self.old (W.text writer.now)) }
        ensures err { OnErr result (self.new ≡ self.old) }
    {
        self.texts.push_by(writer)
    }

    /// Takes the last text back, if there is one.
    pub fn take_back(&mut self)
        ensures value { (batch : Batch) (text : List ℕ) → self.old ≡ with_text batch text → self.new ≡ batch }
    {
        self.texts.pop();
    }

    /// Sets the number of finished commands.
    pub fn set_finished(&mut self, finished: u64)
        ensures value { self.new ≡ with_finished self.old finished }
    {
        self.finished = finished;
    }

    /// Takes this room for its texts, if it has none.
    pub fn take_room(&mut self, room: &mut Room)
        ensures same { self.new ≡ self.old }
        ensures room { room.new ≡ room.old }
    {
        self.texts.take_room(&mut room.texts);
    }

    /// Gives its room back, if it has no text and `room` is empty.
    pub fn give_room(&mut self, room: &mut Room)
        ensures same { self.new ≡ self.old }
        ensures room { room.new ≡ room.old }
    {
        room.texts.take_room(&mut self.texts);
    }

    /// Returns the number of texts.
    pub fn count(&self) -> u64
        ensures value { result ≡ length self.now.texts }
    {
        self.texts.count() as u64
    }

    /// Returns the number of finished commands.
    pub fn finished(&self) -> u64
        ensures value { result ≡ self.now.finished }
    {
        self.finished
    }
}
