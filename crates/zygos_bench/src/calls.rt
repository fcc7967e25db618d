//! Calls on a shard, with values of 100 bytes.
use mc_calls::{Call, Tag};
use mc_shard::Shard;
use std::alloc::Global;
use zy_base::{Blob, NoMemory, number_text};

/// The value of each write.
pub(crate) const VALUE: [u8; 100] = [b'v'; 100];

/// Makes a read of the key with these digits.
pub(crate) fn get(alloc: Global, key: u64) -> Result<Call, NoMemory> {
    match key_text(alloc, key) {
        Ok(key) => Ok(Call::Get { key }),
        Err(e) => Err(e),
    }
}

/// Makes a write.
pub(crate) fn set(alloc: Global, key: u64) -> Result<Call, NoMemory> {
    let key = key_text(alloc, key)?;
    match Blob::copy_of(alloc, &VALUE) {
        Ok(value) => Ok(Call::Set {
            key,
            flags: 0,
            value,
        }),
        Err(e) => {
            drop(key);
            Err(e)
        }
    }
}

// Returns the digits of a key.
fn key_text(alloc: Global, number: u64) -> Result<Blob, NoMemory> {
    let mut key = Blob::new(alloc);
    match number_text(&mut key, number) {
        Ok(()) => Ok(key),
        Err(e) => {
            drop(key);
            Err(e)
        }
    }
}

/// Makes a call if the shard is young enough, and drops its reply.
pub(crate) fn apply(shard: &mut Shard, index: u64, call: Call) -> Result<(), NoMemory> {
    if shard.last() >= 1 << 60 || shard.history().len() >= 1 << 52 {
        drop(call);
        return Err(NoMemory);
    }
    let tag = Tag {
        conn: 0,
        index,
        part: 0,
    };
    match shard.make(tag, call, 0) {
        Ok(made) => {
            drop(made);
            Ok(())
        }
        Err((call, refused)) => {
            drop(call);
            Err(refused)
        }
    }
}
