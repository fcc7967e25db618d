//! Texts one after another in one row of bytes.
ghost use Rattle.std.specs.Prelude.{◌≡◌, ◌≤◌, ℕ, List, ◌++◌, [], ◌∷◌, length, take, OnOk, OnErr, IfErr};
ghost use Rattle.std.specs.Prelude.{◌+◌, vec_len, vec_capacity};
ghost use Rattle.std.specs.List.{concat};
ghost use Rattle.zy_calls.specs.Texts.{further, end_of, AreWithin};

use crate::writes::Writes;
use std::alloc::Global;
use std::marker::Model;
use std::mem;
use zy_base::{Blob, NoMemory};

// The most bytes of texts whose room is kept for more texts.
const ROOM_LIMIT: usize = 65_536;

/// A list of texts, kept as their bytes and the place where each ends. Contracts see it as the list.
#[derive(Drop)]
pub(crate) struct Texts {
    bytes: Blob,
    ends: Vec<usize>,
}

impl Model for Texts {
    ghost use Rattle.std.specs.Prelude.{ℕ, List, length};
    ghost use Rattle.zy_calls.specs.Texts.{texts_from, Rise};

    ghost Value = { List (List ℕ) };

    ghost view = { λ t. texts_from t.bytes 0 t.ends.items };

    ghost invariant = { λ t. Rise 0 t.ends.items (length t.bytes) };
}

impl Texts {
    /// Makes the list without a text. Takes no memory.
    pub(crate) fn new(alloc: Global) -> Texts
        ensures value { result ≡ [] }
    {
        Texts {
            bytes: Blob::new(alloc),
            ends: Vec::new(alloc),
        }
    }

    /// Returns the number of texts.
    pub(crate) fn count(&self) -> usize
        ensures value { result ≡ length self.now }
    {
        self.ends.len()
    }

    /// Appends a text.
    pub(crate) fn push(&mut self, text: &[u8]) -> Result<(), NoMemory>
        ensures ok { OnOk result (self.new ≡ self.old ++ text.now ∷ []) }
        ensures err { OnErr result (self.new ≡ self.old) }
    {
        if self.ends.reserve(1).is_err() {
            return Err(NoMemory);
        }
        self.bytes.append(text)?;
        self.ends.push_reserved(self.bytes.bytes().len());
        Ok(())
    }

    /// Appends the text that a writer writes.
    pub(crate) fn push_by<W: Writes>(&mut self, writer: &W) -> Result<(), NoMemory>
        requires ready { W.ready writer.now }
        ensures ok { OnOk result (self.new ≡ self.old ++ W.text writer.now ∷ []) }
        ensures err { OnErr result (self.new ≡ self.old) }
    {
        if self.ends.reserve(1).is_err() {
            return Err(NoMemory);
        }
        writer.write(&mut self.bytes)?;
        self.ends.push_reserved(self.bytes.bytes().len());
        Ok(())
    }

    /// Takes the last text off, if there is one.
    pub(crate) fn pop(&mut self)
        ensures value { (texts : List (List ℕ)) (text : List ℕ) → self.old ≡ texts ++ text ∷ [] → self.new ≡ texts }
    {
        let Some(_last) = self.ends.pop() else {
            return;
        };
        let end = last_end(self.ends.as_slice());
        self.bytes.truncate(end);
    }

    /// Appends the texts of another list; if allocation fails it is handed back.
    pub(crate) fn append(&mut self, other: Texts) -> Result<(), (Texts, NoMemory)>
        ensures ok { OnOk result (self.new ≡ self.old ++ other) }
        ensures err { OnErr result (self.new ≡ self.old) }
        ensures returned { IfErr result (λ e. e.0 ≡ other) }
    {
        if self.ends.is_empty() {
            drop(mem::replace(self, other));
            return Ok(());
        }
        match self.append_copy(&other) {
            Ok(()) => {
                drop(other);
                Ok(())
            }
            Err(e) => Err((other, e)),
        }
    }

    /// Moves the texts of another list to the end of its own. The other list keeps its room for
    /// more texts, but not room for many bytes: those are moved, if this list has no texts.
    pub(crate) fn take_all(&mut self, other: &mut Texts) -> Result<(), NoMemory>
        ensures ok { OnOk result (self.new ≡ self.old ++ other.old) }
        ensures other { OnOk result (other.new ≡ []) }
        ensures err { OnErr result ((self.new ≡ self.old) × (other.new ≡ other.old)) }
    {
        if self.ends.is_empty() && other.is_large() {
            let none = Texts::new(*self.ends.allocator());
            drop(mem::replace(self, mem::replace(other, none)));
            return Ok(());
        }
        self.append_copy(other)?;
        other.clear();
        Ok(())
    }

    /// Takes the room of another list, if it has none itself and neither has a text.
    pub(crate) fn take_room(&mut self, other: &mut Texts)
        ensures value { self.new ≡ self.old }
        ensures other { other.new ≡ other.old }
    {
        if self.ends.capacity() == 0 && self.ends.is_empty() && other.ends.is_empty() {
            mem::swap(self, other);
        }
    }

    // Appends copies of the texts of another list.
    fn append_copy(&mut self, other: &Texts) -> Result<(), NoMemory>
        ensures ok { OnOk result (self.new ≡ self.old ++ other.now) }
        ensures err { OnErr result (self.new ≡ self.old) }
    {
        if self.ends.reserve(other.ends.len()).is_err() {
            return Err(NoMemory);
        }
        let start = self.bytes.bytes().len();
        if start.checked_add(other.bytes.bytes().len()).is_none() {
            return Err(NoMemory);
        }
        self.bytes.append(other.bytes.bytes())?;
        append_further(&mut self.ends, start, other.ends.as_slice());
        Ok(())
    }

    // Checks whether the texts have too many bytes for their room to be kept.
    fn is_large(&self) -> bool {
        self.bytes.bytes().len() > ROOM_LIMIT
    }

    // Drops all texts. Room for many bytes is given back, so that one large text does not keep it.
    fn clear(&mut self)
        ensures value { self.new ≡ [] }
    {
        if self.is_large() {
            let none = Texts::new(*self.ends.allocator());
            drop(mem::replace(self, none));
            return;
        }
        self.bytes.truncate(0);
        self.ends.clear();
    }

    /// Returns the bytes of all texts.
    pub(crate) fn bytes(&self) -> &[u8]
        ensures value { result.now ≡ concat self.now }
    {
        self.bytes.bytes()
    }

    /// Returns the bytes of the first `count` texts.
    pub(crate) fn upto(&self, count: usize) -> &[u8]
        requires within { count ≤ length self.now }
        ensures value { result.now ≡ concat (take count self.now) }
    {
        if count == 0 {
            return &[];
        }
        &self.bytes.bytes()[..self.ends[count - 1]]
    }

    /// Returns the bytes of all texts. Takes no memory.
    pub(crate) fn into_bytes(self) -> Blob
        ensures value { result ≡ concat self }
    {
        self.bytes
    }
}

// Returns where the last of the texts that end at these places ends, or 0.
#[tactic(auto, using(crate::proofs::TextLemmas::end_of_get))]
fn last_end(ends: &[usize]) -> usize
    ensures value { result ≡ end_of 0 ends.now }
{
    match ends {
        [.., last] => *last,
        [] => 0,
    }
}

// Appends places, each increased by `start`.
fn append_further(ends: &mut Vec<usize>, start: usize, others: &[usize])
    requires room { vec_len ends.old + length others.now ≤ vec_capacity ends.old }
    requires fits { AreWithin start others.now }
    ensures value { ends.new.items ≡ ends.old.items ++ further start others.now }
{
    for other in others {
        ends.push_reserved(start + *other);
    }
}
