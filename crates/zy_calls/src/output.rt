//! Outputs of connections.
ghost use Rattle.std.specs.Prelude.{◌≡◌, ◌≤◌, length, OnOk, OnErr, IfErr};
ghost use Rattle.std.specs.List.{concat};
ghost use Rattle.zy_calls.specs.Batch.{no_text};
ghost use Rattle.zy_calls.specs.Output.{nothing_sent, with_batch, bytes_upto};

use crate::batch::Batch;
use crate::texts::Texts;
use std::alloc::Global;
use std::marker::Model;
use zy_base::{Blob, NoMemory};

/// What a connection was sent, and the number of its finished commands. Contracts see it as its
/// connection, the list of its texts, and that number.
#[derive(Drop)]
pub struct Output {
    conn: u32,
    texts: Texts,
    finished: u64,
}

impl Model for Output {
    ghost use Rattle.zy_calls.specs.Output.{Output};

    ghost Value = { Output };

    ghost view = { λ output. record { conn = output.conn; texts = output.texts; finished = output.finished } };
}

impl Output {
    /// Makes the output of a connection to which nothing was sent. Takes no memory.
    pub fn new(alloc: Global, conn: u32) -> Output
        ensures value { result ≡ nothing_sent conn }
    {
        Output {
            conn,
            texts: Texts::new(alloc),
            finished: 0,
        }
    }

    /// Appends the texts of a batch, and sets the number of finished commands to the batch's. If
    /// allocation fails, the batch is handed back. The first batch is moved. The program calls
    /// `take_texts` instead.
    pub fn carry_out(&mut self, batch: Batch) -> Result<(), (Batch, NoMemory)>
        ensures ok { OnOk result (self.new ≡ with_batch self.old batch) }
        ensures err { OnErr result (self.new ≡ self.old) }
        ensures returned { IfErr result (λ e. e.0 ≡ batch) }
    {
        let Batch { texts, finished } = batch;
        match self.texts.append(texts) {
            Ok(()) => {
                self.finished = finished;
                Ok(())
            }
            Err((texts, e)) => Err((Batch { texts, finished }, e)),
        }
    }

    /// Moves the texts of a batch to the end, and sets the number of finished commands to the
    /// batch's. The batch is left without texts, and keeps its room for more, up to 64 KiB. If
    /// allocation fails, both are as they were. A larger first batch is moved.
    pub fn take_texts(&mut self, batch: &mut Batch) -> Result<(), NoMemory>
        ensures ok { OnOk result (self.new ≡ with_batch self.old batch.old) }
        ensures batch { OnOk result (batch.new ≡ no_text batch.old.finished) }
        ensures err { OnErr result ((self.new ≡ self.old) × (batch.new ≡ batch.old)) }
    {
        self.texts.take_all(&mut batch.texts)?;
        self.finished = batch.finished;
        Ok(())
    }

    /// Returns the connection.
    pub fn conn(&self) -> u32
        ensures value { result ≡ self.now.conn }
    {
        self.conn
    }

    /// Returns the number of texts.
    pub fn count(&self) -> u64
        ensures value { result ≡ length self.now.texts }
    {
        self.texts.count() as u64
    }

    /// Returns the number of finished commands.
    pub fn finished(&self) -> u64
        ensures value { result ≡ self.now.finished }
    {
        self.finished
    }

    /// Returns the texts, joined.
    pub fn bytes(&self) -> &[u8]
        ensures value { result.now ≡ concat self.now.texts }
    {
        self.texts.bytes()
    }

    /// Returns the first `count` texts, joined. Takes no memory.
    pub fn upto(&self, count: u64) -> &[u8]
        requires within { count ≤ length self.now.texts }
        ensures value { result.now ≡ bytes_upto self.now count }
    {
        self.texts.upto(count as usize)
    }

    /// Returns the texts, joined. Takes no memory.
    pub fn into_bytes(self) -> Blob
        ensures value { result ≡ concat self.texts }
    {
        self.texts.into_bytes()
    }
}
