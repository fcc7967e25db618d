//! Where the bytes of a byte string are.
ghost use Rattle.std.specs.Prelude.{◌≡◌, ◌+◌, ◌-◌, ◌≤◌, ◌<◌, ◌++◌, length, take, drop, vec_len, vec_capacity};
ghost use Rattle.std.specs.Prelude.{IfOk, IfErr, IsOk};
ghost use Rattle.zy_base.specs.Blob.{bytes_of, IsWithin};

use crate::outside::NoMemory;
use crate::short::{ROOM, Short};
use std::alloc::Global;
use std::sync::Arc;

// Where the bytes of a byte string are.
#[derive(Drop)]
pub(crate) enum Storage {
    // In place.
    Short(Short),
    // In a vector of its own.
    Own(Vec<u8>),
    // A part of a vector that may have several owners: `len` bytes, from `from` on.
    Shared {
        block: Arc<Vec<u8>>,
        from: usize,
        len: usize,
    },
}

impl Storage {
    // Returns the bytes.
    pub(crate) fn bytes(&self) -> &[u8]
        requires within { IsWithin self.now }
        ensures value { result.now ≡ bytes_of self.now }
    {
        match self {
            Storage::Short(short) => short.bytes(),
            Storage::Own(bytes) => bytes.as_slice(),
            Storage::Shared { block, from, len } => &block.as_slice()[*from..*from + *len],
        }
    }

    // Copies the bytes, unless they are shared.
    pub(crate) fn copy(&self, alloc: Global) -> Result<Storage, NoMemory>
        requires within { IsWithin self.now }
        ensures value { IfOk result (λ copy. bytes_of copy ≡ bytes_of self.now) }
        ensures within { IfOk result (λ copy. IsWithin copy) }
    {
        match self {
            Storage::Short(short) => Ok(Storage::Short(short.copy())),
            Storage::Own(bytes) => copied(alloc, bytes.as_slice()),
            Storage::Shared { block, from, len } => shared_part(block, *from, *len),
        }
    }

    // Returns the bytes from `from` up to `end`: in place if they fit, otherwise shared if these
    // are shared, and otherwise copied.
    pub(crate) fn part(&self, alloc: Global, from: usize, end: usize) -> Result<Storage, NoMemory>
        requires kept { IsWithin self.now }
        requires order { from ≤ end }
        requires within { end ≤ length (bytes_of self.now) }
        ensures value { IfOk result (λ part. bytes_of part ≡ take (end - from) (drop from (bytes_of self.now))) }
        ensures within { IfOk result (λ part. IsWithin part) }
        ensures few { end - from ≤ 16 → IsOk result }
    {
        match self {
            Storage::Shared {
                block,
                from: start,
                ..
            } => part(block, *start + from, *start + end),
            _ => copied(alloc, &self.bytes()[from..end]),
        }
    }

    // Cuts the end off, so that at most `len` bytes are left.
    pub(crate) fn truncate(&mut self, len: usize)
        requires within { IsWithin self.old }
        ensures value { bytes_of self.new ≡ take len (bytes_of self.old) }
        ensures within { IsWithin self.new }
    {
        match self {
            Storage::Short(short) => short.truncate(len),
            Storage::Own(bytes) => bytes.truncate(len),
            Storage::Shared { len: all, .. } => {
                if len < *all {
                    *all = len;
                }
            }
        }
    }
}

// Copies bytes, in place if they fit.
pub(crate) fn copied(alloc: Global, bytes: &[u8]) -> Result<Storage, NoMemory>
    ensures value { IfOk result (λ copy. bytes_of copy ≡ bytes.now) }
    ensures within { IfOk result (λ copy. IsWithin copy) }
    ensures few { length bytes.now ≤ 16 → IsOk result }
{
    if bytes.len() <= ROOM {
        return Ok(in_place(bytes));
    }
    match Vec::from_slice(alloc, bytes) {
        Ok(bytes) => Ok(Storage::Own(bytes)),
        Err(_) => Err(NoMemory),
    }
}

// Joins two byte strings, in a new vector.
pub(crate) fn joined(alloc: Global, front: &[u8], back: &[u8]) -> Result<Storage, NoMemory>
    ensures value { IfOk result (λ copy. bytes_of copy ≡ front.now ++ back.now) }
    ensures within { IfOk result (λ copy. IsWithin copy) }
{
    let Ok(mut bytes) = Vec::with_capacity(alloc, front.len() + back.len()) else {
        return Err(NoMemory);
    };
    if bytes.extend_from_slice(front).is_err() || bytes.extend_from_slice(back).is_err() {
        return Err(NoMemory);
    }
    Ok(Storage::Own(bytes))
}

// Copies bytes in a vector, with room for `more` further bytes.
pub(crate) fn with_room(alloc: Global, bytes: &[u8], more: usize) -> Result<Vec<u8>, NoMemory>
    ensures value { IfOk result (λ copy. copy.items ≡ bytes.now) }
    ensures room { IfOk result (λ copy. vec_len copy + more ≤ vec_capacity copy) }
{
    let Ok(mut copy) = Vec::from_slice(alloc, bytes) else {
        return Err(NoMemory);
    };
    match copy.reserve(more) {
        Ok(()) => Ok(copy),
        Err(_) => Err(NoMemory),
    }
}

// Lets the bytes of a vector have several owners. If allocation fails it still has one.
pub(crate) fn shared(alloc: Global, bytes: Vec<u8>) -> Result<Storage, Storage>
    ensures ok { IfOk result (λ kept. IsWithin kept × (bytes_of kept ≡ bytes.items)) }
    ensures err { IfErr result (λ kept. IsWithin kept × (bytes_of kept ≡ bytes.items)) }
{
    let len = bytes.len();
    if len <= ROOM {
        return Ok(in_place(bytes.as_slice()));
    }
    match Arc::new(alloc, bytes) {
        Ok(block) => Ok(Storage::Shared {
            block,
            from: 0,
            len,
        }),
        Err(refused) => Err(Storage::Own(refused.value)),
    }
}

// Returns the bytes of a vector from `from` up to `end`: in place where they fit, and else shared.
pub(crate) fn part(block: &Arc<Vec<u8>>, from: usize, end: usize) -> Result<Storage, NoMemory>
    requires order { from ≤ end }
    requires within { end ≤ length block.now.value.items }
    ensures value { IfOk result (λ part. bytes_of part ≡ take (end - from) (drop from block.now.value.items)) }
    ensures within { IfOk result (λ part. IsWithin part) }
    ensures few { end - from ≤ 16 → IsOk result }
{
    let len = end - from;
    if len <= ROOM {
        return Ok(in_place(&block.as_slice()[from..end]));
    }
    shared_part(block, from, len)
}

// Returns the `len` bytes of a vector from `from` on, shared.
fn shared_part(block: &Arc<Vec<u8>>, from: usize, len: usize) -> Result<Storage, NoMemory>
    requires within { from + len ≤ length block.now.value.items }
    ensures value { IfOk result (λ part. bytes_of part ≡ take len (drop from block.now.value.items)) }
    ensures within { IfOk result (λ part. IsWithin part) }
{
    match Arc::try_clone(block) {
        Ok(block) => Ok(Storage::Shared { block, from, len }),
        Err(_) => Err(NoMemory),
    }
}

// Keeps a few bytes in place.
fn in_place(bytes: &[u8]) -> Storage
    requires few { length bytes.now ≤ 16 }
    ensures value { bytes_of result ≡ bytes.now }
    ensures within { IsWithin result }
{
    let mut short = Short::new();
    short.append(bytes);
    Storage::Short(short)
}
