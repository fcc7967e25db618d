//! The bytes of a number, one after another.
ghost use Rattle.std.specs.Prelude.{◌≡◌, ◌<◌, [], ◌∷◌, ◌++◌, length};
ghost use Rattle.std.specs.Int.{from_be_bytes, w32};

use std::marker::Model;

/// The bytes read so far of a number of at most eight bytes. Contracts see it as the list of these,
/// which are at most seven.
#[derive(Drop)]
pub struct Field {
    seen: usize,
    bytes: [u8; 8],
}

impl Model for Field {
    ghost use Rattle.std.specs.Prelude.{List, ℕ, ◌<◌, take};

    ghost Value = { List ℕ };

    ghost view = { λ f. take f.seen f.bytes };

    ghost invariant = { λ f. f.seen < 8 };
}

impl Field {
    /// Begins without a byte.
    pub fn new() -> Field
        ensures value { result ≡ [] }
    {
        Field {
            seen: 0,
            bytes: [0; 8],
        }
    }

    /// Returns how many bytes were read.
    pub fn len(&self) -> usize
        ensures value { result ≡ length self.now }
        ensures limit { result < 8 }
    {
        self.seen
    }

    /// Forgets all bytes.
    pub fn clear(&mut self)
        ensures value { self.new ≡ [] }
    {
        self.seen = 0;
    }

    /// Appends a byte.
    pub fn push(&mut self, byte: u8)
        requires room { length self.old < 7 }
        ensures value { self.new ≡ self.old ++ byte ∷ [] }
    {
        self.bytes[self.seen] = byte;
        self.seen += 1;
    }

    /// Returns the four bytes, of which this one is the last.
    pub fn four(&self, byte: u8) -> [u8; 4]
        requires whole { length self.now ≡ 3 }
        ensures value { result ≡ self.now ++ byte ∷ [] }
    {
        let b = &self.bytes;
        [b[0], b[1], b[2], byte]
    }

    /// Returns the eight bytes, of which this one is the last.
    pub fn eight(&self, byte: u8) -> [u8; 8]
        requires whole { length self.now ≡ 7 }
        ensures value { result ≡ self.now ++ byte ∷ [] }
    {
        let b = &self.bytes;
        [b[0], b[1], b[2], b[3], b[4], b[5], b[6], byte]
    }

    /// Returns the big-endian number of four bytes, of which this one is the last.
    pub fn number(&self, byte: u8) -> u32
        requires whole { length self.now ≡ 3 }
        ensures value { result ≡ from_be_bytes w32 (self.now ++ byte ∷ []) }
    {
        u32::from_be_bytes([self.bytes[0], self.bytes[1], self.bytes[2], byte])
    }
}
