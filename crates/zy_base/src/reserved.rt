//! Byte strings with reserved room.
ghost use Rattle.std.specs.Prelude.{◌≡◌, ◌≤◌, ◌+◌, ◌++◌, length, decimal};

use crate::blob::Blob;
use itoa::Buffer;
use std::marker::Model;

/// A byte string with room for further bytes, which are then appended without a failure. Contracts
/// see it as its bytes, and the number of further bytes for which there is room.
#[derive(Drop)]
pub struct Reserved {
    pub(crate) bytes: Vec<u8>,
}

impl Model for Reserved {
    ghost use Rattle.std.specs.Prelude.{◌-◌, vec_len, vec_capacity};
    ghost use Rattle.zy_base.specs.Reserved.{Roomy};

    ghost Value = { Roomy };

    ghost view = { λ r. record { bytes = r.bytes.items; room = vec_capacity r.bytes - vec_len r.bytes } };
}

impl Reserved {
    /// Appends the bytes. Takes no memory.
    pub fn append(&mut self, bytes: &[u8])
        requires fits { length bytes.now ≤ self.old.room }
        ensures value { self.new.bytes ≡ self.old.bytes ++ bytes.now }
        ensures room { self.old.room ≤ self.new.room + length bytes.now }
    {
        match self.bytes.extend_from_slice(bytes) {
            Ok(()) => {}
            Err(_) => unreachable!(),
        }
    }

    /// Appends the number's decimal digits, without padding. Takes no memory.
    pub fn append_number(&mut self, number: u64)
        requires fits { length (decimal number) ≤ self.old.room }
        ensures value { self.new.bytes ≡ self.old.bytes ++ decimal number }
        ensures room { self.old.room ≤ self.new.room + length (decimal number) }
    {
        let mut buffer = Buffer::new();
        self.append(buffer.format(number).as_bytes());
    }

    /// Appends the decimal digits of a number of up to 128 bits, without padding. Takes no memory.
    pub fn append_wide(&mut self, number: u128)
        requires fits { length (decimal number) ≤ self.old.room }
        ensures value { self.new.bytes ≡ self.old.bytes ++ decimal number }
        ensures room { self.old.room ≤ self.new.room + length (decimal number) }
    {
        let mut buffer = Buffer::new();
        self.append(buffer.format(number).as_bytes());
    }

    /// Returns the bytes. Takes no memory.
    pub fn into_blob(self) -> Blob
        ensures value { result ≡ self.bytes }
    {
        Blob::from_vec(self.bytes)
    }
}
