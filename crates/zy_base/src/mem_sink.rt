//! Sinks in memory.
ghost use Rattle.std.specs.Prelude.{◌≡◌, ℕ, ◌≤◌, ◌<◌, ◌+◌, true, false, [], length, take, min, is_ok, is_err};
ghost use Rattle.std.specs.Prelude.{option_map, if◌then◌else◌, Some, IfOk, OnOk, OnErr};
ghost use Rattle.zy_base.specs.Outside.{Rose, Grew, WriteGrew, TakesSome, one_more};
ghost use Rattle.zy_base.specs.Memory.{is_failing, held_after};

use crate::call_numbers::CallNumbers;
use crate::outside::{Failed, NoMemory, Sink};
use crate::sure_sink::SureSink;
use std::alloc::Global;
use std::marker::Model;

/// A sink in memory, which takes a bounded number of bytes a call and fails at given calls.
#[derive(Drop)]
pub struct MemSink {
    kept: SureSink,
    most: usize,
    failing: CallNumbers,
    calls: u64,
    faults: u64,
    is_finished: bool,
}

impl Model for MemSink {
    ghost use Rattle.std.specs.Prelude.{◌≤◌};
    ghost use Rattle.zy_base.specs.Memory.{Writing};

    ghost Value = { Writing };

    ghost view = { λ s. record {
      holds = s.kept.holds;
      room = s.kept.room;
      most = s.most;
      failing = s.failing;
      calls = s.calls;
      faults = s.faults;
      finishes = s.kept.finishes;
      is_finished = s.is_finished;
    } };

    ghost invariant = { λ s. 1 ≤ s.most };
}

impl MemSink {
    /// Keeps at most `room` bytes, takes at most `most` a call, and fails at exactly the calls with these
    /// numbers, counted from 0; a finish is a call too. The room is reserved here.
    pub fn new(
        alloc: Global,
        room: usize,
        most: usize,
        failing: CallNumbers,
    ) -> Result<MemSink, NoMemory>
        requires some { 1 ≤ most }
        ensures value { IfOk result (λ sink. sink ≡ record {
          holds = Some [];
          room = room;
          most = most;
          failing = failing;
          calls = 0;
          faults = 0;
          finishes = 0;
          is_finished = false;
        }) }
    {
        let kept = SureSink::new(alloc, room)?;
        Ok(MemSink {
            kept,
            most,
            failing,
            calls: 0,
            faults: 0,
            is_finished: false,
        })
    }

    /// Returns the bytes taken, unless one of them was not kept.
    pub fn bytes(&self) -> Option<&[u8]>
        ensures value { option_map (λ bytes. bytes.now) result ≡ self.now.holds }
    {
        self.kept.bytes()
    }

    // Checks whether the call that is made now fails; it is counted.
    fn fails(&mut self) -> bool
        ensures value { result ≡ is_failing self.old.failing self.old.calls }
        ensures counted { self.new ≡ record self.old { calls = one_more self.old.calls } }
    {
        let call = self.calls;
        self.calls = call.saturating_add(1);
        self.failing.items().contains(&call)
    }
}

impl Sink for MemSink {
    ghost holds = { λ s. s.holds };

    ghost faults = { λ s. s.faults };

    ghost finishes = { λ s. s.finishes };

    ghost is_finished = { λ s. s.is_finished };

    fn write(&mut self, from: &[u8]) -> Result<usize, Failed>
        ensures bound { TakesSome result from.now }
        ensures bytes { WriteGrew self.old.holds self.new.holds result from.now }
        ensures count { self.old.faults ≤ self.new.faults }
        ensures cause { OnErr result (Rose self.old.faults self.new.faults) }
        ensures unfinished { self.new.finishes ≡ self.old.finishes }
        ensures open { self.new.is_finished ≡ false }
        ensures fails { is_err result ≡ is_failing self.old.failing self.old.calls }
        ensures takes { IfOk result (λ n. n ≡ min self.old.most (length from.now)) }
        ensures ok { IfOk result (λ n. self.new ≡ record self.old {
          holds = held_after self.old.holds self.old.room (take n from.now);
          calls = one_more self.old.calls;
          is_finished = false;
        }) }
        ensures err { OnErr result (self.new ≡ record self.old {
          calls = one_more self.old.calls;
          faults = one_more self.old.faults;
          is_finished = false;
        }) }
    {
        self.is_finished = false;
        if self.fails() {
            self.faults = self.faults.saturating_add(1);
            return Err(Failed);
        }
        let n = self.most.min(from.len());
        self.kept.take(&from[..n]);
        Ok(n)
    }

    fn finish(&mut self) -> Result<(), Failed>
        ensures bytes { Grew self.old.holds self.new.holds [] }
        ensures count { self.old.faults ≤ self.new.faults }
        ensures cause { OnErr result (Rose self.old.faults self.new.faults) }
        ensures finished { self.new.finishes ≡ one_more self.old.finishes }
        ensures last { self.new.is_finished ≡ is_ok result }
        ensures fails { is_err result ≡ is_failing self.old.failing self.old.calls }
        ensures ok { OnOk result (self.new ≡ record self.old {
          calls = one_more self.old.calls;
          finishes = one_more self.old.finishes;
          is_finished = true;
        }) }
        ensures err { OnErr result (self.new ≡ record self.old {
          calls = one_more self.old.calls;
          faults = one_more self.old.faults;
          finishes = one_more self.old.finishes;
          is_finished = false;
        }) }
    {
        self.kept.count_finish();
        self.is_finished = false;
        if self.fails() {
            self.faults = self.faults.saturating_add(1);
            return Err(Failed);
        }
        self.is_finished = true;
        Ok(())
    }
}
