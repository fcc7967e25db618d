//! Bytes that are kept by their offsets, each the first one that came.
ghost use Rattle.std.specs.Prelude.{◌≡◌, ℕ, ◌+◌, ◌<◌, ◌≤◌, ◌^◌, [], ◌++◌, length, None, true, OnOk, OnErr};
ghost use Rattle.zy_pcap.specs.Session.{longest};
ghost use Rattle.zy_pcap.specs.Held.{byte_held, parts, covered, has_run, IsWhole, IsOver, HoldsSame, HoldsBoth};

use crate::weaving::woven;
use std::alloc::Global;
use std::collections::BTreeMap;
use zy_base::{Blob, NoMemory};

// The most bytes of a row.
const ROW_LIMIT: u32 = 1 << 31;

/// Bytes by their offsets: those from the first one on in a row, and those after a gap in runs. A byte
/// that two runs have is that of the run that begins first.
///
/// A packet adds at most one run, no longer than its payload, copies no more bytes than that, and
/// looks at no more runs than its payload has bytes. When a gap is filled, each run after it is
/// copied into the row and dropped. So whatever their order, the memory and the bytes copied are
/// linear in the payloads.
#[derive(Drop)]
pub(crate) struct HeldBytes {
    pub(crate) front: Vec<u8>,
    pub(crate) runs: BTreeMap<u32, Blob>,
}

impl HeldBytes {
    // Begins without bytes. Takes no memory.
    #[tactic(auto, unfolding(crate::specs::Held::byte_held))]
    pub(crate) fn new(alloc: Global) -> HeldBytes
        ensures none { (at : ℕ) → byte_held (parts result) at ≡ None }
        ensures whole { IsWhole result }
    {
        HeldBytes {
            front: Vec::new(alloc),
            runs: BTreeMap::new(alloc),
        }
    }

    // Adds bytes from an offset on; those that were kept before stay. If allocation fails, nothing
    // changes.
    pub(crate) fn add(&mut self, from: u32, bytes: &[u8]) -> Result<(), NoMemory>
        requires within { from + length bytes.now ≤ 2 ^ 31 }
        requires whole { IsWhole self.old }
        ensures ok { OnOk result (HoldsBoth (byte_held (parts self.old))
            (byte_held (parts self.new)) (covered bytes.now from)) }
        ensures err { OnErr result (HoldsSame (byte_held (parts self.old))
            (byte_held (parts self.new))) }
        ensures whole { IsWhole self.new }
    {
        let begin = from as usize;
        let have = self.front.len();
        if begin + bytes.len() <= have {
            return Ok(());
        }
        if begin > have {
            return self.add_apart(from, bytes);
        }
        if self.runs.is_empty() {
            return self.append(begin, bytes);
        }
        self.add_next(begin, bytes)
    }

    // Adds bytes of which some come next after the row, when there are no runs.
    fn append(&mut self, from: usize, bytes: &[u8]) -> Result<(), NoMemory>
        requires next { from ≤ length self.old.front.items }
        requires some { length self.old.front.items < from + length bytes.now }
        requires within { from + length bytes.now ≤ 2 ^ 31 }
        requires alone { self.old.runs.entries ≡ [] }
        requires whole { IsWhole self.old }
        ensures ok { OnOk result (HoldsBoth (byte_held (parts self.old))
            (byte_held (parts self.new)) (covered bytes.now from)) }
        ensures err { OnErr result (HoldsSame (byte_held (parts self.old))
            (byte_held (parts self.new))) }
        ensures whole { IsWhole self.new }
    {
        match self
            .front
            .extend_from_slice(&bytes[self.front.len() - from..])
        {
            Ok(()) => Ok(()),
            Err(_) => Err(NoMemory),
        }
    }

    // Adds bytes of which some come next after the row.
    fn add_next(&mut self, from: usize, bytes: &[u8]) -> Result<(), NoMemory>
        requires next { from ≤ length self.old.front.items }
        requires some { length self.old.front.items < from + length bytes.now }
        requires within { from + length bytes.now ≤ 2 ^ 31 }
        requires whole { IsWhole self.old }
        ensures ok { OnOk result (HoldsBoth (byte_held (parts self.old))
            (byte_held (parts self.new)) (covered bytes.now from)) }
        ensures err { OnErr result (HoldsSame (byte_held (parts self.old))
            (byte_held (parts self.new))) }
        ensures whole { IsWhole self.new }
    {
        let have = self.front.len();
        let runs = self.runs.range(0..ROW_LIMIT);
        let alloc = *self.front.allocator();
        let next = match woven(alloc, runs, have, &bytes[have - from..], ROW_LIMIT as usize) {
            Ok(next) => next,
            Err(refused) => return Err(refused),
        };
        let grown = self.front.extend_from_slice(&next);
        drop(next);
        match grown {
            Ok(()) => {
                self.forget();
                Ok(())
            }
            Err(_) => Err(NoMemory),
        }
    }

    // Adds bytes that come after a gap.
    fn add_apart(&mut self, from: u32, bytes: &[u8]) -> Result<(), NoMemory>
        requires apart { length self.old.front.items < from }
        requires within { from + length bytes.now ≤ 2 ^ 31 }
        requires whole { IsWhole self.old }
        ensures ok { OnOk result (HoldsBoth (byte_held (parts self.old))
            (byte_held (parts self.new)) (covered bytes.now from)) }
        ensures err { OnErr result (HoldsSame (byte_held (parts self.old))
            (byte_held (parts self.new))) }
        ensures whole { IsWhole self.new }
    {
        if self.has_run(from, bytes.len()) {
            return Ok(());
        }
        let end = from + bytes.len() as u32;
        let runs = self.runs.range(from..end);
        let alloc = *self.front.allocator();
        let run = match woven(alloc, runs, from as usize, bytes, end as usize) {
            Ok(run) => Blob::from_vec(run),
            Err(refused) => return Err(refused),
        };
        match self.runs.insert(from, run) {
            Ok(shorter) => {
                drop(shorter);
                Ok(())
            }
            Err(refused) => {
                drop(refused);
                Err(NoMemory)
            }
        }
    }

    // Checks whether there is a run that begins at an offset, with at least this many bytes.
    fn has_run(&self, from: u32, size: usize) -> bool
        ensures value { result ≡ has_run self.now.runs.entries from size }
    {
        match self.runs.get(&from) {
            Some(run) => size <= run.bytes().len(),
            None => false,
        }
    }

    // Drops the first runs, as far as the row has come to their ends.
    fn forget(&mut self)
        ensures same { HoldsSame (byte_held (parts self.old)) (byte_held (parts self.new)) }
        ensures front { self.new.front ≡ self.old.front }
    {
        while self.forget_first() {}
    }

    // Drops the first run, if the row has come to its end.
    fn forget_first(&mut self) -> bool
        ensures same { HoldsSame (byte_held (parts self.old)) (byte_held (parts self.new)) }
        ensures front { self.new.front ≡ self.old.front }
        ensures less { result ≡ true
            → length self.new.runs.entries < length self.old.runs.entries }
    {
        if self.is_over() {
            drop(self.runs.pop_first());
            return true;
        }
        false
    }

    // Checks whether the row has come to the end of the first run.
    fn is_over(&self) -> bool
        ensures value { result ≡ true → IsOver self.now }
    {
        match self.runs.first_key_value() {
            Some((begin, run)) => *begin as usize + run.bytes().len() <= self.front.len(),
            None => false,
        }
    }

    // Returns the bytes from the first one on, up to the first one that is missing.
    pub(crate) fn stream(&self) -> &[u8]
        requires whole { IsWhole self.now }
        ensures value { result.now ≡ longest (byte_held (parts self.now)) }
    {
        self.front.as_slice()
    }
}
