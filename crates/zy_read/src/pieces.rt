//! The bytes of a source, read in pieces.
ghost use Rattle.std.specs.Prelude.{◌≡◌, ◌-◌, ◌<◌, ◌≤◌, ℕ, List, [], length, take, drop, true, Ok, IfOk, IsOk};
ghost use Rattle.zy_read.specs.Piece.{HasGiven, Refills};

use crate::bytes::are_bytes;
use std::alloc::Global;
use std::marker::Model;
use std::mem;
use zy_base::{Blob, Failed, NoMemory, Piece, Source};

// The most bytes that one read asks for.
const PIECE: usize = 65_536;

/// A piece of a source, of 64 KiB at most. Contracts see it as those of its bytes that were not
/// taken yet.
#[derive(Drop)]
pub struct Pieces {
    alloc: Global,
    piece: Vec<u8>,
    at: usize,
    end: usize,
    // The bytes of the piece, once a byte string was cut from it.
    shared: Option<Piece>,
}

impl Model for Pieces {
    ghost use Rattle.std.specs.Prelude.{List, ℕ, ◌≡◌, ◌-◌, ◌<◌, ◌≤◌, length, take, drop, IfSome};

    ghost Value = { List ℕ };

    ghost view = { λ p. take (p.end - p.at) (drop p.at p.piece.items) };

    ghost invariant = { λ p. (p.at ≤ p.end)
        × (p.end ≤ length p.piece.items) × (0 < length p.piece.items)
        × IfSome p.shared (λ s. s ≡ take p.end p.piece.items) };
}

impl Pieces {
    /// Begins before the first byte.
    pub fn new(alloc: Global) -> Result<Pieces, NoMemory>
        ensures ok { IfOk result (λ pieces. pieces ≡ []) }
    {
        match vec![in alloc; 0u8; PIECE] {
            Ok(piece) => Ok(Pieces {
                alloc,
                piece,
                at: 0,
                end: 0,
                shared: None,
            }),
            Err(_) => Err(NoMemory),
        }
    }

    /// Reads the next piece if nothing is left of this one. Returns false at the end of the source.
    pub fn refill<S: Source>(&mut self, source: &mut S) -> Result<bool, Failed>
        ensures value { (first : S) (taken : List ℕ)
            → HasGiven S.rest S.faults first source.old self.old taken
            → Refills S.rest S.faults first source.new self.new taken result }
        ensures some { result ≡ Ok true → 0 < length self.new }
        ensures count { S.faults source.old ≤ S.faults source.new }
    {
        if self.at < self.end {
            return Ok(true);
        }
        drop(mem::replace(&mut self.shared, None));
        let n = source.read(self.piece.as_mut_slice())?;
        are_bytes(&self.piece[..n]);
        self.at = 0;
        self.end = n;
        Ok(n > 0)
    }

    /// Returns the bytes that are left.
    pub fn left(&self) -> &[u8]
        ensures value { result.now ≡ self.now }
    {
        &self.piece[self.at..self.end]
    }

    /// Returns the bytes from `from` up to `end` of those that are left, as a byte string; none is
    /// taken. Those of more than 16 bytes share their bytes with each other; the first of them
    /// takes memory for all.
    #[inline(always)]
    pub fn part(&mut self, from: usize, end: usize) -> Result<Blob, NoMemory>
        requires order { from ≤ end }
        requires within { end ≤ length self.old }
        ensures value { IfOk result (λ blob. blob ≡ take (end - from) (drop from self.old)) }
        ensures kept { self.new ≡ self.old }
    {
        if let Some(shared) = &self.shared {
            return shared.part(self.at + from, self.at + end);
        }
        self.first_part(from, end)
    }

    // Returns such a part, when no byte string was cut from the piece yet.
    fn first_part(&mut self, from: usize, end: usize) -> Result<Blob, NoMemory>
        requires order { from ≤ end }
        requires within { end ≤ length self.old }
        ensures value { IfOk result (λ blob. blob ≡ take (end - from) (drop from self.old)) }
        ensures kept { self.new ≡ self.old }
    {
        let shared = Piece::copy_of(self.alloc, &self.piece[..self.end])?;
        let blob = shared.part(self.at + from, self.at + end);
        drop(mem::replace(&mut self.shared, Some(shared)));
        blob
    }

    /// Takes this many of the bytes that are left, the first ones.
    pub fn pass(&mut self, count: usize)
        requires within { count ≤ length self.old }
        ensures value { self.new ≡ drop count self.old }
    {
        self.at += count;
    }
}
