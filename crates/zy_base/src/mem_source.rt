//! Sources in memory.
ghost use Rattle.std.specs.Prelude.{◌≡◌, ℕ, ◌≤◌, ◌+◌, [], length, take, drop, min, is_err, Some, IfOk, OnErr};
ghost use Rattle.std.specs.Io.KnownBytes.{ReadConsumes};
ghost use Rattle.zy_base.specs.Outside.{Rose, one_more};
ghost use Rattle.zy_base.specs.Memory.{is_failing};

use crate::blob::Blob;
use crate::call_numbers::CallNumbers;
use crate::outside::{Failed, Source};
use std::marker::Model;

/// A source in memory, which gives a bounded number of bytes a call and fails at given calls.
#[derive(Drop)]
pub struct MemSource {
    bytes: Blob,
    at: usize,
    most: usize,
    failing: CallNumbers,
    calls: u64,
    faults: u64,
}

impl Model for MemSource {
    ghost use Rattle.std.specs.Prelude.{◌≤◌, drop, length};
    ghost use Rattle.zy_base.specs.Memory.{Reading};

    ghost Value = { Reading };

    ghost view = { λ s. record {
      rest = drop s.at s.bytes;
      most = s.most;
      failing = s.failing;
      calls = s.calls;
      faults = s.faults;
    } };

    ghost invariant = { λ s. record { within : s.at ≤ length s.bytes; some : 1 ≤ s.most } };
}

impl MemSource {
    /// Gives these bytes, at most `most` a call, and fails at exactly the calls with these numbers,
    /// counted from 0. Takes no memory.
    pub fn new(bytes: Blob, most: usize, failing: CallNumbers) -> MemSource
        requires some { 1 ≤ most }
        ensures value { result ≡ record { rest = bytes; most = most; failing = failing; calls = 0; faults = 0 } }
    {
        MemSource {
            bytes,
            at: 0,
            most,
            failing,
            calls: 0,
            faults: 0,
        }
    }

    // Checks whether the call that is made now fails; it is counted.
    fn fails(&mut self) -> bool
        ensures value { result ≡ is_failing self.old.failing self.old.calls }
        ensures counted { self.new ≡ record self.old { calls = one_more self.old.calls } }
    {
        let call = self.calls;
        self.calls = call.saturating_add(1);
        self.failing.items().contains(&call)
    }
}

impl Source for MemSource {
    ghost rest = { λ s. Some s.rest };

    ghost faults = { λ s. s.faults };

    fn read(&mut self, into: &mut [u8]) -> Result<usize, Failed>
        ensures bound { IfOk result (λ n. n ≤ length into.new) }
        ensures bytes { ReadConsumes (Some self.old.rest) (Some self.new.rest) result into.new }
        ensures count { self.old.faults ≤ self.new.faults }
        ensures cause { OnErr result (Rose self.old.faults self.new.faults) }
        ensures fails { is_err result ≡ is_failing self.old.failing self.old.calls }
        ensures gives { IfOk result (λ n. n ≡ min (length into.old) (min self.old.most (length self.old.rest))) }
        ensures ok { IfOk result (λ n. self.new ≡ record self.old {
          rest = drop n self.old.rest;
          calls = one_more self.old.calls;
        }) }
        ensures err { OnErr result (self.new ≡ record self.old {
          calls = one_more self.old.calls;
          faults = one_more self.old.faults;
        }) }
    {
        if self.fails() {
            self.faults = self.faults.saturating_add(1);
            return Err(Failed);
        }
        let n = give(&self.bytes.bytes()[self.at..], self.most, into);
        self.at += n;
        Ok(n)
    }
}

// Copies the first bytes: the number that fits, at most `most`. Returns that number.
pub(crate) fn give(from: &[u8], most: usize, into: &mut [u8]) -> usize
    ensures count { result ≡ min (length into.old) (min most (length from.now)) }
    ensures given { take result into.new ≡ take result from.now }
{
    let n = into.len().min(most.min(from.len()));
    into[..n].copy_from_slice(&from[..n]);
    n
}
