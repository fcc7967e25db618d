//! Sources and sinks over the standard library's readers and writers.
ghost use Rattle.std.specs.Prelude.{◌≡◌, IsSome};
ghost use Rattle.zy_base.specs.Outside.{told_since};

use std::io::{Read, Write};
use std::snapshot::Snapshot;
use zy_base::{Failed, Sink, Source};

/// Reads from a reader, and counts its errors. Its bytes are known if the reader's are: over memory
/// they are, over standard input they are not.
#[derive(Drop)]
pub struct StdSource<R> {
    reader: R,
    faults: u64,
}

impl<R> StdSource<R> {
    /// Reads from this reader. Takes no memory.
    pub fn new(reader: R) -> StdSource<R>
        ensures reader { result.reader ≡ reader }
        ensures faults { result.faults ≡ 0 }
    {
        StdSource { reader, faults: 0 }
    }
}

impl<R: Read> Source for StdSource<R> {
    ghost rest = { λ s. R.remaining s.reader };

    ghost faults = { λ s. s.faults };

    fn read(&mut self, into: &mut [u8]) -> Result<usize, Failed> {
        match self.reader.read(into) {
            Ok(n) => Ok(n),
            Err(_) => {
                self.faults = self.faults.saturating_add(1);
                Err(Failed)
            }
        }
    }
}

/// Writes to a writer, and counts its flushes, its errors and the writes that take no byte of a piece.
/// Its bytes are known if the writer's are: over memory they are, over standard output they are not.
#[derive(Drop)]
pub struct StdSink<W: Write> {
    writer: W,
    faults: u64,
    finishes: u64,
    is_finished: bool,
    first: Snapshot<W>,
    ghost tells: { IsSome (W.contents first.value) → IsSome (W.contents writer) },
}

impl<W: Write> StdSink<W> {
    /// Writes to this writer. Takes no memory.
    pub fn new(writer: W) -> StdSink<W>
        ensures writer { result.writer ≡ writer }
        ensures faults { result.faults ≡ 0 }
        ensures finishes { result.finishes ≡ 0 }
    {
        let first = Snapshot::of(&writer);
        StdSink {
            writer,
            faults: 0,
            finishes: 0,
            is_finished: false,
            first,
        }
    }
}

impl<W: Write> Sink for StdSink<W> {
    ghost holds = { λ s. told_since (W.contents s.first.value) (W.contents s.writer) };

    ghost faults = { λ s. s.faults };

    ghost finishes = { λ s. s.finishes };

    ghost is_finished = { λ s. s.is_finished };

    fn write(&mut self, from: &[u8]) -> Result<usize, Failed> {
        self.is_finished = false;
        match self.writer.write(from) {
            Ok(n) if n > 0 || from.is_empty() => Ok(n),
            _ => {
                self.faults = self.faults.saturating_add(1);
                Err(Failed)
            }
        }
    }

    fn finish(&mut self) -> Result<(), Failed> {
        self.finishes = self.finishes.saturating_add(1);
        self.is_finished = false;
        match self.writer.flush() {
            Ok(()) => {
                self.is_finished = true;
                Ok(())
            }
            Err(_) => {
                self.faults = self.faults.saturating_add(1);
                Err(Failed)
            }
        }
    }
}
