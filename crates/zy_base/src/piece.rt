//! Bytes of which byte strings are made without a copy.
ghost use Rattle.std.specs.Prelude.{◌≡◌, ◌-◌, ◌≤◌, length, take, drop, IfOk, IsOk};

use crate::blob::Blob;
use crate::outside::NoMemory;
use crate::storage::part;
use std::alloc::Global;
use std::marker::Model;
use std::sync::Arc;

/// Bytes that byte strings share with each other. They are kept as long as one of these is.
/// Contracts see it as the list of its bytes.
#[derive(Drop)]
pub struct Piece {
    alloc: Global,
    block: Arc<Vec<u8>>,
}

impl Model for Piece {
    ghost use Rattle.std.specs.Prelude.{ℕ, List};

    ghost Value = { List ℕ };

    ghost view = { λ p. p.block.value.items };
}

impl Piece {
    /// Copies bytes.
    pub fn copy_of(alloc: Global, bytes: &[u8]) -> Result<Piece, NoMemory>
        ensures value { IfOk result (λ piece. piece ≡ bytes.now) }
    {
        let Ok(copy) = Vec::from_slice(alloc, bytes) else {
            return Err(NoMemory);
        };
        match Arc::new(alloc, copy) {
            Ok(block) => Ok(Piece { alloc, block }),
            Err(refused) => {
                drop(refused);
                Err(NoMemory)
            }
        }
    }

    /// Returns the bytes from `from` up to `end`. Takes no memory: up to 16 bytes are copied into
    /// place, which cannot fail. More are shared, which fails only if 2^63 byte strings share the
    /// piece already.
    #[inline(always)]
    pub fn part(&self, from: usize, end: usize) -> Result<Blob, NoMemory>
        requires order { from ≤ end }
        requires within { end ≤ length self.now }
        ensures value { IfOk result (λ blob. blob ≡ take (end - from) (drop from self.now)) }
        ensures few { end - from ≤ 16 → IsOk result }
    {
        match part(&self.block, from, end) {
            Ok(storage) => Ok(Blob::from_storage(self.alloc, storage)),
            Err(refused) => Err(refused),
        }
    }
}
