//! Sources in memory that never fail.
ghost use Rattle.std.specs.Prelude.{◌≡◌, ℕ, ◌≤◌, length, min, drop, IsOk, IfOk, Some};
ghost use Rattle.std.specs.Io.KnownBytes.{ReadConsumes};

use crate::blob::Blob;
use crate::mem_source::give;
use crate::outside::{Failed, Source};
use std::marker::Model;

/// A source in memory, which never fails. Contracts see it as the bytes that are still to come.
#[derive(Drop)]
pub struct SureSource {
    bytes: Blob,
    at: usize,
}

impl Model for SureSource {
    ghost use Rattle.std.specs.Prelude.{List, ℕ, ◌≤◌, drop, length};

    ghost Value = { List ℕ };

    ghost view = { λ s. drop s.at s.bytes };

    ghost invariant = { λ s. s.at ≤ length s.bytes };
}

impl SureSource {
    /// Gives these bytes. Takes no memory.
    pub fn new(bytes: Blob) -> SureSource
        ensures value { result ≡ bytes }
    {
        SureSource { bytes, at: 0 }
    }
}

impl Source for SureSource {
    ghost rest = { λ s. Some s };

    ghost faults = { λ _. 0 };

    fn read(&mut self, into: &mut [u8]) -> Result<usize, Failed>
        ensures bound { IfOk result (λ n. n ≤ length into.new) }
        ensures bytes { ReadConsumes (Some self.old) (Some self.new) result into.new }
        ensures succeeds { IsOk result }
        ensures gives { IfOk result (λ n. n ≡ min (length into.old) (length self.old)) }
        ensures ok { IfOk result (λ n. self.new ≡ drop n self.old) }
    {
        let n = give(&self.bytes.bytes()[self.at..], usize::MAX, into);
        self.at += n;
        Ok(n)
    }
}
