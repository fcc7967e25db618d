//! Where bytes come from and go to, and the gate that a command passes.
ghost use Rattle.std.specs.Prelude.{◌≡◌, ℕ, ◌≤◌, ⊤, Bool, false, List, [], length, Option, is_ok, IfOk, OnErr};
ghost use Rattle.std.specs.Io.KnownBytes.{ReadConsumes};
ghost use Rattle.zy_base.specs.Outside.{Rose, Grew, WriteGrew, TakesSome, one_more};

use std::alloc::{AllocError, AllocFailed};

/// An allocation failed.
#[derive(Clone, Copy, PartialEq, Eq)]
pub struct NoMemory;

impl From<AllocError> for NoMemory {
    ghost from_gives = { λ _ _. ⊤ };

    fn from(_: AllocError) -> NoMemory {
        NoMemory
    }
}

impl<T: Drop> From<AllocFailed<T>> for NoMemory {
    ghost from_gives = { λ _ _. ⊤ };

    fn from(_: AllocFailed<T>) -> NoMemory {
        NoMemory
    }
}

/// A read, a write or a finish failed.
#[derive(Clone, Copy, PartialEq, Eq)]
pub struct Failed;

/// Gives bytes.
pub trait Source {
    // The bytes that are still to come, if the source makes them known.
    ghost rest: { Self → Option (List ℕ) };

    // How often a read failed.
    ghost faults: { Self → ℕ };

    /// Reads the next bytes into the buffer, and returns their number; the rest of the buffer may
    /// have any bytes. A read of 0 bytes into a buffer that is not empty is the end of the input.
    ///
    /// Answers `Failed` only if the count of faults rose, or was already at its largest value.
    fn read(&mut self, into: &mut [u8]) -> Result<usize, Failed>
        ensures bound { IfOk result (λ n. n ≤ length into.new) }
        ensures bytes { ReadConsumes (rest self.old) (rest self.new) result into.new }
        ensures count { faults self.old ≤ faults self.new }
        ensures cause { OnErr result (Rose (faults self.old) (faults self.new)) };
}

/// Takes bytes.
pub trait Sink {
    // The bytes taken so far, if the sink makes them known.
    ghost holds: { Self → Option (List ℕ) };

    // How often a write or a finish failed.
    ghost faults: { Self → ℕ };

    // How often `finish` was called.
    ghost finishes: { Self → ℕ };

    // Whether the last call was a `finish`, and succeeded.
    ghost is_finished: { Self → Bool };

    /// Takes the first bytes of a piece, at least one if the piece is not empty, and returns their
    /// number.
    ///
    /// Answers `Failed` only if the count of faults rose, or is at its largest value; then nothing
    /// was taken.
    fn write(&mut self, from: &[u8]) -> Result<usize, Failed>
        ensures bound { TakesSome result from.now }
        ensures bytes { WriteGrew (holds self.old) (holds self.new) result from.now }
        ensures count { faults self.old ≤ faults self.new }
        ensures cause { OnErr result (Rose (faults self.old) (faults self.new)) }
        ensures unfinished { finishes self.new ≡ finishes self.old }
        ensures open { is_finished self.new ≡ false };

    /// Makes sure that all that was taken has reached its destination. It takes no bytes. The call
    /// is counted even if it fails.
    fn finish(&mut self) -> Result<(), Failed>
        ensures bytes { Grew (holds self.old) (holds self.new) [] }
        ensures count { faults self.old ≤ faults self.new }
        ensures cause { OnErr result (Rose (faults self.old) (faults self.new)) }
        ensures finished { finishes self.new ≡ one_more (finishes self.old) }
        ensures last { is_finished self.new ≡ is_ok result };
}

/// A gate is passed once for each command, when the command is begun. It has no contract.
pub trait Gate {
    /// Lets the command with this index of this connection, on this core, pass.
    fn pass(&self, core: u32, conn: u32, index: u64);
}

/// The gate that is always open.
#[derive(Clone, Copy)]
pub struct Ungated;

impl Gate for Ungated {
    fn pass(&self, _core: u32, _conn: u32, _index: u64) {}
}
