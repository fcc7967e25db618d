//! Byte strings of a known size, as their bytes come.
ghost use Rattle.std.specs.Prelude.{◌≡◌, ◌≤◌, ◌<◌, ◌+◌, [], ◌∷◌, ◌++◌, length, IfOk, IsOk};
ghost use Rattle.zy_base.specs.Filling.{room_left, bytes_so_far};

use crate::blob::Blob;
use crate::outside::NoMemory;
use crate::short::{ROOM, Short};
use std::alloc::Global;
use std::marker::Model;

/// The bytes so far of a byte string whose size is known, with room for all of them: up to 16 bytes
/// are kept in place. Contracts see the bytes, and the number of further bytes for which there is
/// room.
#[derive(Drop)]
pub struct Filling {
    alloc: Global,
    form: Form,
}

// Where the bytes are kept.
#[derive(Drop)]
pub(crate) enum Form {
    Short(Short),
    Long(Vec<u8>),
}

impl Model for Filling {
    ghost use Rattle.zy_base.specs.Reserved.{Roomy};
    ghost use Rattle.zy_base.specs.Filling.{room_left, bytes_so_far};

    ghost Value = { Roomy };

    ghost view = { λ f. record { bytes = bytes_so_far f.form; room = room_left f.form } };
}

impl Filling {
    /// Begins without bytes, with room for 16. Takes no memory.
    pub fn new(alloc: Global) -> Filling
        ensures value { result.bytes ≡ [] }
        ensures room { result.room ≡ 16 }
    {
        Filling {
            alloc,
            form: Form::Short(Short::new()),
        }
    }

    /// Begins without bytes, with room for `size`. Room for up to 16 takes no memory, and cannot
    /// fail.
    pub fn with_room(alloc: Global, size: usize) -> Result<Filling, NoMemory>
        ensures value { IfOk result (λ filling. filling.bytes ≡ []) }
        ensures room { IfOk result (λ filling. size ≤ filling.room) }
        ensures few { size ≤ 16 → IsOk result }
    {
        if size <= ROOM {
            return Ok(Filling::new(alloc));
        }
        match Vec::with_capacity(alloc, size) {
            Ok(bytes) => Ok(Filling {
                alloc,
                form: Form::Long(bytes),
            }),
            Err(_) => Err(NoMemory),
        }
    }

    /// Returns the number of bytes.
    pub fn len(&self) -> usize
        ensures value { result ≡ length self.now.bytes }
    {
        match &self.form {
            Form::Short(short) => short.bytes().len(),
            Form::Long(bytes) => bytes.len(),
        }
    }

    /// Appends the bytes. Takes no memory.
    pub fn append(&mut self, bytes: &[u8])
        requires fits { length bytes.now ≤ self.old.room }
        ensures value { self.new.bytes ≡ self.old.bytes ++ bytes.now }
        ensures room { self.old.room ≤ self.new.room + length bytes.now }
    {
        match &mut self.form {
            Form::Short(short) => {
                // The call tells the prover that it has at most 16 bytes.
                let _bytes = short.bytes();
                short.append(bytes);
            }
            Form::Long(long) => {
                // There is room, so this cannot fail.
                let _ = long.extend_from_slice(bytes);
            }
        }
    }

    /// Appends one byte. Takes no memory.
    pub fn push(&mut self, byte: u8)
        requires fits { 0 < self.old.room }
        ensures value { self.new.bytes ≡ self.old.bytes ++ byte ∷ [] }
        ensures room { self.old.room ≤ self.new.room + 1 }
    {
        match &mut self.form {
            Form::Short(short) => short.push(byte),
            Form::Long(long) => long.push_reserved(byte),
        }
    }

    /// Returns the bytes. Takes no memory.
    pub fn into_blob(self) -> Blob
        ensures value { result ≡ self.bytes }
    {
        let Filling { alloc, form } = self;
        match form {
            Form::Short(short) => Blob::from_short(alloc, short),
            Form::Long(bytes) => Blob::from_vec(bytes),
        }
    }
}
