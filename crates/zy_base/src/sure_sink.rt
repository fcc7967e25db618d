//! Sinks in memory that never fail.
ghost use Rattle.std.specs.Prelude.{◌≡◌, ℕ, ◌≤◌, true, false, [], length, option_map, Some, is_ok, IsOk, IfOk};
ghost use Rattle.zy_base.specs.Outside.{Grew, WriteGrew, TakesSome, one_more};
ghost use Rattle.zy_base.specs.Memory.{held_after};

use crate::outside::{Failed, NoMemory, Sink};
use std::alloc::Global;
use std::marker::Model;

/// A sink in memory, which never fails. A piece that does not fit into the room left is taken but
/// not kept; from then on the sink's bytes are not known.
#[derive(Drop)]
pub struct SureSink {
    bytes: Vec<u8>,
    room: usize,
    is_told: bool,
    finishes: u64,
    is_finished: bool,
}

impl Model for SureSink {
    ghost use Rattle.std.specs.Prelude.{◌≤◌, length, None, Some, if◌then◌else◌, vec_capacity};
    ghost use Rattle.zy_base.specs.Memory.{Keeping};

    ghost Value = { Keeping };

    ghost view = { λ s. record {
      holds = if s.is_told then Some s.bytes.items else None;
      room = s.room;
      finishes = s.finishes;
      is_finished = s.is_finished;
    } };

    ghost invariant = { λ s. record {
      within : length s.bytes.items ≤ s.room;
      reserved : s.room ≤ vec_capacity s.bytes;
    } };
}

impl SureSink {
    /// Keeps at most `room` bytes; the room for them is reserved here.
    pub fn new(alloc: Global, room: usize) -> Result<SureSink, NoMemory>
        ensures value { IfOk result (λ sink. sink ≡ record {
          holds = Some [];
          room = room;
          finishes = 0;
          is_finished = false;
        }) }
    {
        match Vec::with_capacity(alloc, room) {
            Ok(bytes) => Ok(SureSink {
                bytes,
                room,
                is_told: true,
                finishes: 0,
                is_finished: false,
            }),
            Err(_) => Err(NoMemory),
        }
    }

    /// Returns the bytes taken, unless one of them was not kept.
    pub fn bytes(&self) -> Option<&[u8]>
        ensures value { option_map (λ bytes. bytes.now) result ≡ self.now.holds }
    {
        if self.is_told {
            Some(self.bytes.as_slice())
        } else {
            None
        }
    }

    // Takes the piece, and keeps it if it fits.
    pub(crate) fn take(&mut self, piece: &[u8])
        ensures value { self.new ≡ record self.old {
          holds = held_after self.old.holds self.old.room piece.now;
          is_finished = false;
        } }
    {
        self.is_finished = false;
        if self.is_told && piece.len() <= self.room - self.bytes.len() {
            self.is_told = self.bytes.extend_from_slice(piece).is_ok();
        } else {
            self.is_told = false;
        }
    }

    // Counts a finish.
    pub(crate) fn count_finish(&mut self)
        ensures value { self.new ≡ record self.old { finishes = one_more self.old.finishes } }
    {
        self.finishes = self.finishes.saturating_add(1);
    }
}

impl Sink for SureSink {
    ghost holds = { λ s. s.holds };

    ghost faults = { λ _. 0 };

    ghost finishes = { λ s. s.finishes };

    ghost is_finished = { λ s. s.is_finished };

    fn write(&mut self, from: &[u8]) -> Result<usize, Failed>
        ensures bound { TakesSome result from.now }
        ensures bytes { WriteGrew self.old.holds self.new.holds result from.now }
        ensures unfinished { self.new.finishes ≡ self.old.finishes }
        ensures open { self.new.is_finished ≡ false }
        ensures takes { result ≡ Ok (length from.now) }
        ensures kept { self.new ≡ record self.old {
          holds = held_after self.old.holds self.old.room from.now;
          is_finished = false;
        } }
    {
        self.take(from);
        Ok(from.len())
    }

    fn finish(&mut self) -> Result<(), Failed>
        ensures bytes { Grew self.old.holds self.new.holds [] }
        ensures finished { self.new.finishes ≡ one_more self.old.finishes }
        ensures last { self.new.is_finished ≡ is_ok result }
        ensures succeeds { IsOk result }
        ensures kept { self.new ≡ record self.old { finishes = one_more self.old.finishes; is_finished = true } }
    {
        self.count_finish();
        self.is_finished = true;
        Ok(())
    }
}
