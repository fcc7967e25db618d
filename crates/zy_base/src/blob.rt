//! Byte strings.
ghost use Rattle.std.specs.Prelude.{◌≡◌, [], ◌++◌, ◌-◌, ◌≤◌, length, take, drop, IfOk, IsOk, OnOk, OnErr, Some, refl};
ghost use Rattle.std.specs.Ordering.{nat_cmp};
ghost use Rattle.std.specs.Prelude.{nat_eq};
ghost use Rattle.std.specs.Cmp.{partial_equiv_from_equiv};
ghost use Rattle.std.specs.Cmp.Lexicographic.{pointwise, slice_cmp, nat_list_eq_equiv, nat_list_cmp_total};
ghost use Rattle.std.specs.Cmp.Lexicographic.{texts_ties, texts_po};
ghost use Rattle.zy_base.specs.Blob.{bytes_of, IsWithin};

use crate::outside::NoMemory;
use crate::reserved::Reserved;
use crate::short::{ROOM, Short};
use crate::storage::{Storage, copied, joined, shared, with_room};
use std::alloc::Global;
use std::cmp::Ordering;
use std::marker::Model;
use std::mem;

/// A byte string. Contracts see it as the list of its bytes.
///
/// Up to 16 bytes are kept in place; more in a vector, which copies share once `share` was called.
#[derive(Drop)]
pub struct Blob {
    alloc: Global,
    storage: Storage,
}

impl Model for Blob {
    ghost use Rattle.std.specs.Prelude.{ℕ, List};
    ghost use Rattle.zy_base.specs.Blob.{bytes_of, IsWithin};

    ghost Value = { List ℕ };

    ghost view = { λ b. bytes_of b.storage };

    ghost invariant = { λ b. IsWithin b.storage };
}

impl Blob {
    /// Makes the empty byte string. Takes no memory.
    pub fn new(alloc: Global) -> Blob
        ensures value { result ≡ [] }
    {
        Blob {
            alloc,
            storage: Storage::Short(Short::new()),
        }
    }

    /// Copies the bytes.
    #[inline(always)]
    pub fn copy_of(alloc: Global, bytes: &[u8]) -> Result<Blob, NoMemory>
        ensures value { IfOk result (λ copy. copy ≡ bytes.now) }
    {
        let storage = copied(alloc, bytes)?;
        Ok(Blob { alloc, storage })
    }

    /// Makes a byte string of the same bytes, which its copies and parts share.
    #[inline(always)]
    pub fn shared_copy_of(alloc: Global, bytes: &[u8]) -> Result<Blob, NoMemory>
        ensures value { IfOk result (λ copy. copy ≡ bytes.now) }
    {
        let mut copy = Blob::copy_of(alloc, bytes)?;
        match copy.share() {
            Ok(()) => Ok(copy),
            Err(refused) => {
                drop(copy);
                Err(refused)
            }
        }
    }

    /// Makes a byte string of a vector, which is moved. Takes no memory.
    pub fn from_vec(bytes: Vec<u8>) -> Blob
        ensures value { result ≡ bytes.items }
    {
        Blob {
            alloc: *bytes.allocator(),
            storage: Storage::Own(bytes),
        }
    }

    // Makes a byte string of bytes that are kept in place. Takes no memory.
    pub(crate) fn from_short(alloc: Global, short: Short) -> Blob
        ensures value { result ≡ short }
    {
        Blob::from_storage(alloc, Storage::Short(short))
    }

    // Makes a byte string of bytes that are kept in this way. Takes no memory.
    pub(crate) fn from_storage(alloc: Global, storage: Storage) -> Blob
        requires within { IsWithin storage }
        ensures value { result ≡ bytes_of storage }
    {
        Blob { alloc, storage }
    }

    /// Copies the bytes. Takes no memory if they are in place or shared.
    pub fn copy(&self) -> Result<Blob, NoMemory>
        ensures value { IfOk result (λ copy. copy ≡ self.now) }
    {
        let storage = self.storage.copy(self.alloc)?;
        Ok(Blob {
            alloc: self.alloc,
            storage,
        })
    }

    /// Lets copies share the bytes from now on.
    #[inline(always)]
    pub fn share(&mut self) -> Result<(), NoMemory>
        ensures value { self.new ≡ self.old }
    {
        match &self.storage {
            Storage::Own(_) => self.share_own(),
            _ => Ok(()),
        }
    }

    // Lets copies share the bytes of a vector of its own, which is moved.
    fn share_own(&mut self) -> Result<(), NoMemory>
        ensures value { self.new ≡ self.old }
    {
        match mem::replace(&mut self.storage, Storage::Short(Short::new())) {
            Storage::Own(bytes) => match shared(self.alloc, bytes) {
                Ok(storage) => {
                    self.put(storage);
                    Ok(())
                }
                Err(storage) => {
                    self.put(storage);
                    Err(NoMemory)
                }
            },
            storage => {
                self.put(storage);
                Ok(())
            }
        }
    }

    /// Appends the bytes.
    #[inline(always)]
    pub fn append(&mut self, bytes: &[u8]) -> Result<(), NoMemory>
        ensures ok { OnOk result (self.new ≡ self.old ++ bytes.now) }
        ensures err { OnErr result (self.new ≡ self.old) }
    {
        match &mut self.storage {
            Storage::Short(short) if bytes.len() <= ROOM - short.bytes().len() => {
                short.append(bytes);
                Ok(())
            }
            Storage::Own(own) => match own.extend_from_slice(bytes) {
                Ok(()) => Ok(()),
                Err(_) => Err(NoMemory),
            },
            _ => self.append_anew(bytes),
        }
    }

    // Appends the bytes, in a new vector.
    fn append_anew(&mut self, bytes: &[u8]) -> Result<(), NoMemory>
        ensures ok { OnOk result (self.new ≡ self.old ++ bytes.now) }
        ensures err { OnErr result (self.new ≡ self.old) }
    {
        let storage = joined(self.alloc, self.storage.bytes(), bytes)?;
        self.put(storage);
        Ok(())
    }

    /// Returns the bytes from `from` up to `end`. Up to 16 are copied into place, which cannot
    /// fail. More are shared if these bytes are shared, which takes no memory; otherwise they are
    /// copied.
    pub fn part(&self, from: usize, end: usize) -> Result<Blob, NoMemory>
        requires order { from ≤ end }
        requires within { end ≤ length self.now }
        ensures value { IfOk result (λ part. part ≡ take (end - from) (drop from self.now)) }
        ensures few { end - from ≤ 16 → IsOk result }
    {
        let storage = self.storage.part(self.alloc, from, end)?;
        Ok(Blob {
            alloc: self.alloc,
            storage,
        })
    }

    /// Appends the bytes of another byte string from `from` up to `end`. The first bytes are shared with
    /// it, if its bytes are shared.
    pub fn append_part(&mut self, other: &Blob, from: usize, end: usize) -> Result<(), NoMemory>
        requires order { from ≤ end }
        requires within { end ≤ length other.now }
        ensures ok { OnOk result (self.new ≡ self.old ++ take (end - from) (drop from other.now)) }
        ensures err { OnErr result (self.new ≡ self.old) }
    {
        if !self.bytes().is_empty() {
            return self.append(&other.bytes()[from..end]);
        }
        let storage = other.storage.part(self.alloc, from, end)?;
        self.put(storage);
        Ok(())
    }

    /// Cuts the end off, so that at most `len` bytes are left. Takes no memory.
    pub fn truncate(&mut self, len: usize)
        ensures value { self.new ≡ take len self.old }
    {
        self.storage.truncate(len);
    }

    /// Moves the bytes out, with room for at least `more` further ones. None are left here.
    pub fn reserve(&mut self, more: usize) -> Result<Reserved, NoMemory>
        ensures value { IfOk result (λ reserved. reserved.bytes ≡ self.old) }
        ensures room { IfOk result (λ reserved. more ≤ reserved.room) }
        ensures ok { OnOk result (self.new ≡ []) }
        ensures err { OnErr result (self.new ≡ self.old) }
    {
        match mem::replace(&mut self.storage, Storage::Short(Short::new())) {
            Storage::Own(mut bytes) => match bytes.reserve(more) {
                Ok(()) => Ok(Reserved { bytes }),
                Err(_) => {
                    self.put(Storage::Own(bytes));
                    Err(NoMemory)
                }
            },
            storage => match with_room(self.alloc, storage.bytes(), more) {
                Ok(bytes) => {
                    drop(storage);
                    Ok(Reserved { bytes })
                }
                Err(refused) => {
                    self.put(storage);
                    Err(refused)
                }
            },
        }
    }

    /// Takes room for at least `more` further bytes, if they do not fit in place. The bytes stay as
    /// they are.
    pub fn make_room(&mut self, more: usize) -> Result<(), NoMemory>
        ensures value { self.new ≡ self.old }
    {
        match &self.storage {
            Storage::Short(short) if more <= ROOM - short.bytes().len() => Ok(()),
            _ => self.make_room_in_vector(more),
        }
    }

    // Takes room in a vector for at least `more` further bytes.
    fn make_room_in_vector(&mut self, more: usize) -> Result<(), NoMemory>
        ensures value { self.new ≡ self.old }
    {
        let reserved = self.reserve(more)?;
        self.put(Storage::Own(reserved.bytes));
        Ok(())
    }

    // Replaces the bytes, and drops the former ones.
    fn put(&mut self, storage: Storage)
        requires within { IsWithin storage }
        ensures value { self.new ≡ bytes_of storage }
    {
        drop(mem::replace(&mut self.storage, storage));
    }

    /// Returns the bytes.
    pub fn bytes(&self) -> &[u8]
        ensures value { result.now ≡ self.now }
    {
        self.storage.bytes()
    }
}

impl PartialEq for Blob {
    ghost eq = { pointwise nat_eq };

    ghost laws = { partial_equiv_from_equiv nat_list_eq_equiv };

    #[inline(always)]
    fn eq(&self, other: &Blob) -> bool {
        self.bytes() == other.bytes()
    }
}

impl Eq for Blob {
    ghost laws = { nat_list_eq_equiv };
}

impl PartialOrd for Blob {
    ghost partial_cmp = { λ x y. Some (slice_cmp nat_cmp x y) };

    ghost laws = { texts_po };

    fn partial_cmp(&self, other: &Blob) -> Option<Ordering> {
        Some(self.cmp(other))
    }
}

// Byte strings are ordered as in a dictionary.
impl Ord for Blob {
    ghost cmp = { slice_cmp nat_cmp };

    ghost total = { nat_list_cmp_total };

    ghost matches_partial_cmp = { λ x y. refl };

    ghost matches_eq = { texts_ties };

    fn cmp(&self, other: &Blob) -> Ordering {
        self.bytes().cmp(&other.bytes())
    }
}
