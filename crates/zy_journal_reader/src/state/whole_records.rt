//! Records of which a piece has all bytes, taken at once.
ghost use Rattle.std.specs.Prelude.{◌≡◌, ◌+◌, ◌≤◌, ℕ, [], length, take, true, false};
ghost use Rattle.zy_read.specs.Runs.{RunsOver};
ghost use Rattle.zy_journal_reader.specs.Found.{IsAtRecord, and_entry, and_hold};
ghost use Rattle.zy_journal_reader.specs.Steps.{journal_fields};

use super::JournalState;
use crate::records::{entry, hold};
use mc_calls::{Entry, Hold};
use std::alloc::Global;

impl JournalState {
    // Takes valid records one after another. Returns the number of their bytes.
    #[tactic(auto, using(zy_read::proofs::OverLemmas::over_none))]
    pub(super) fn take_records(&mut self, alloc: Global, bytes: &[u8]) -> usize
        requires there { IsAtRecord self.old }
        ensures within { result ≤ length bytes.now }
        ensures there { IsAtRecord self.new }
        ensures runs { (at : ℕ)
            → RunsOver journal_fields self.old at (take result bytes.now) self.new [] }
    {
        let mut run = 0;
        loop {
            let size = self.take_record(alloc, &bytes[run..]);
            if size == 0 {
                return run;
            }
            run += size;
        }
    }

    // Takes the record that the bytes begin with, if it is valid. Returns its size; 0 if it was not
    // taken, also because an allocation failed.
    #[tactic(auto, using(zy_read::proofs::OverLemmas::over_none))]
    fn take_record(&mut self, alloc: Global, bytes: &[u8]) -> usize
        requires there { IsAtRecord self.old }
        ensures within { result ≤ length bytes.now }
        ensures there { IsAtRecord self.new }
        ensures runs { (at : ℕ)
            → RunsOver journal_fields self.old at (take result bytes.now) self.new [] }
    {
        match bytes.first() {
            Some(b'J') if self.holds.len() == 0 => self.take_entry(alloc, bytes),
            Some(b'H') => self.take_hold(bytes),
            _ => 0,
        }
    }

    // Takes the entry that the bytes begin with.
    #[tactic(auto, using(crate::proofs::RecordLemmas::entry_over, zy_read::proofs::OverLemmas::over_none))]
    fn take_entry(&mut self, alloc: Global, bytes: &[u8]) -> usize
        requires there { IsAtRecord self.old }
        requires holds { self.old.holds ≡ [] }
        ensures within { result ≤ length bytes.now }
        ensures there { IsAtRecord self.new }
        ensures runs { (at : ℕ)
            → RunsOver journal_fields self.old at (take result bytes.now) self.new [] }
    {
        let Some((found, rest)) = entry(alloc, self.past, bytes) else {
            return 0;
        };
        if self.add_entry(found) {
            bytes.len() - rest.len()
        } else {
            0
        }
    }

    // Takes the hold that the bytes begin with.
    #[tactic(auto, using(crate::proofs::RecordLemmas::hold_over, zy_read::proofs::OverLemmas::over_none))]
    fn take_hold(&mut self, bytes: &[u8]) -> usize
        requires there { IsAtRecord self.old }
        ensures within { result ≤ length bytes.now }
        ensures there { IsAtRecord self.new }
        ensures runs { (at : ℕ)
            → RunsOver journal_fields self.old at (take result bytes.now) self.new [] }
    {
        let Some((found, rest)) = hold(self.past, bytes) else {
            return 0;
        };
        if self.add_hold(found) {
            bytes.len() - rest.len()
        } else {
            0
        }
    }

    // Keeps a whole entry. Returns false if an allocation failed.
    fn add_entry(&mut self, entry: Entry) -> bool
        ensures ok { result ≡ true → self.new ≡ and_entry self.old entry }
        ensures kept { result ≡ false → self.new ≡ self.old }
    {
        if self.entries.reserve(1).is_err() {
            drop(entry);
            return false;
        }
        self.past.stamp = entry.stamp;
        self.past.shard = entry.shard;
        self.entries.push_reserved(entry);
        true
    }

    // Keeps a whole hold. Returns false if an allocation failed.
    fn add_hold(&mut self, hold: Hold) -> bool
        ensures ok { result ≡ true → self.new ≡ and_hold self.old hold }
        ensures kept { result ≡ false → self.new ≡ self.old }
    {
        let conn = hold.conn;
        if self.holds.push(hold).is_err() {
            return false;
        }
        self.past.conn = conn;
        true
    }
}
