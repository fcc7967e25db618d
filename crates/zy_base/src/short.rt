//! Byte strings that are kept in place.
ghost use Rattle.std.specs.Prelude.{◌≡◌, ◌+◌, ◌<◌, ◌≤◌, [], ◌∷◌, ◌++◌, length, take};

use std::marker::Model;

// The most bytes that are kept in place: with their number they fill three machine words.
pub(crate) const ROOM: usize = 16;

// A byte string of at most 16 bytes. Contracts see it as the list of its bytes.
#[derive(Drop)]
pub(crate) struct Short {
    // A machine word, so that all forms of a byte string begin at one and are moved word by word.
    len: usize,
    bytes: [u8; 16],
}

impl Model for Short {
    ghost use Rattle.std.specs.Prelude.{ℕ, List, ◌≤◌, take};

    ghost Value = { List ℕ };

    ghost view = { λ s. take s.len s.bytes };

    ghost invariant = { λ s. s.len ≤ 16 };
}

impl Short {
    pub(crate) fn new() -> Short
        ensures value { result ≡ [] }
    {
        Short {
            len: 0,
            bytes: [0; 16],
        }
    }

    // Copies the bytes.
    pub(crate) fn copy(&self) -> Short
        ensures value { result ≡ self.now }
    {
        Short {
            len: self.len,
            bytes: self.bytes,
        }
    }

    pub(crate) fn bytes(&self) -> &[u8]
        ensures value { result.now ≡ self.now }
        ensures limit { length self.now ≤ 16 }
    {
        &self.bytes[..self.len]
    }

    // Appends bytes for which there is room.
    pub(crate) fn append(&mut self, bytes: &[u8])
        requires room { length self.old + length bytes.now ≤ 16 }
        ensures value { self.new ≡ self.old ++ bytes.now }
    {
        let at = self.len;
        let end = at + bytes.len();
        self.bytes[at..end].copy_from_slice(bytes);
        self.len = end;
    }

    // Appends a byte for which there is room.
    pub(crate) fn push(&mut self, byte: u8)
        requires room { length self.old < 16 }
        ensures value { self.new ≡ self.old ++ byte ∷ [] }
    {
        self.bytes[self.len] = byte;
        self.len += 1;
    }

    // Cuts the end off, so that at most `len` bytes are left.
    pub(crate) fn truncate(&mut self, len: usize)
        ensures value { self.new ≡ take len self.old }
    {
        if len < self.len {
            self.len = len;
        }
    }
}
