//! A call of `serve` over memory: its words, its source and sinks, and its gate.
use crate::sure::sure;
use crate::watch::Watch;
use std::alloc::Global;
use std::process::Abort;
use std::sync::Wait;
use std::thread::Threads;
use zy_base::{Blob, CallNumbers, MemSink, MemSource};
use zygos_run::{Answer, Failure, serve, status};

// The number of a call that no run makes.
const NEVER: u64 = 1_000_000;

// The largest number of bytes that are kept of what is written.
const ROOM: usize = 65_536;

/// Which call fails.
#[derive(Clone, Copy)]
pub(crate) enum Failing {
    None,
    Read(u64),
    Write(u64),
}

impl Failing {
    fn read(self) -> u64 {
        match self {
            Failing::Read(call) => call,
            _ => NEVER,
        }
    }

    fn write(self) -> u64 {
        match self {
            Failing::Write(call) => call,
            _ => NEVER,
        }
    }
}

/// The arguments of a call of `serve`.
#[derive(Drop)]
pub(crate) struct Given {
    words: Vec<Blob>,
    source: MemSource,
    sink: MemSink,
    says: MemSink,
    gate: Watch,
}

// Makes byte strings of the words.
fn blobs(rt: &impl Abort, alloc: Global, words: &[&[u8]]) -> Vec<Blob> {
    let mut blobs = Vec::new(alloc);
    for word in words {
        push_word(rt, alloc, &mut blobs, word);
    }
    blobs
}

fn push_word(rt: &impl Abort, alloc: Global, blobs: &mut Vec<Blob>, word: &[u8]) {
    let blob = sure(rt, Blob::copy_of(alloc, word));
    sure(rt, blobs.push(blob));
}

// Makes the list of this number.
fn only(rt: &impl Abort, alloc: Global, number: u64) -> CallNumbers {
    let mut numbers = CallNumbers::new(alloc);
    sure(rt, numbers.push(number));
    numbers
}

// Makes a sink that takes at most `most` bytes a call, and fails at this call.
fn sink(rt: &impl Abort, alloc: Global, most: usize, call: u64) -> MemSink {
    assert!(rt; most >= 1);
    let failing = only(rt, alloc, call);
    sure(rt, MemSink::new(alloc, ROOM, most, failing))
}

impl Given {
    /// Makes the arguments: these words, a source that gives the capture byte by byte, a sink that
    /// takes one byte a call, and a gate that holds commands or does not.
    pub(crate) fn new(
        rt: &impl Abort,
        alloc: Global,
        words: &[&[u8]],
        capture: Blob,
        failing: Failing,
        holds: bool,
    ) -> Given {
        Given {
            words: blobs(rt, alloc, words),
            source: MemSource::new(capture, 1, only(rt, alloc, failing.read())),
            sink: sink(rt, alloc, 1, failing.write()),
            says: sink(rt, alloc, 64, NEVER),
            gate: Watch::new(rt, alloc, holds),
        }
    }

    /// Makes the same with these bytes, and a gate that holds no command.
    pub(crate) fn ungated(
        rt: &impl Abort,
        alloc: Global,
        words: &[&[u8]],
        capture: &[u8],
        failing: Failing,
    ) -> Given {
        let capture = sure(rt, Blob::copy_of(alloc, capture));
        Given::new(rt, alloc, words, capture, failing, false)
    }

    fn serve<R: Threads + Wait + Sync>(
        &mut self,
        rt: &R,
        alloc: Global,
    ) -> Result<Answer, Failure> {
        serve(
            rt,
            alloc,
            self.words.as_slice(),
            &mut self.source,
            &mut self.sink,
            &mut self.says,
            &self.gate,
        )
    }

    /// Returns the exit status.
    pub(crate) fn status<R: Threads + Wait + Sync>(&mut self, rt: &R, alloc: Global) -> u8 {
        let answer = self.serve(rt, alloc);
        let status = status(&answer);
        drop(answer);
        status
    }

    /// Checks whether a run was served, and its gate was passed as often as the holds of its
    /// journal say.
    pub(crate) fn is_told<R: Threads + Wait + Sync>(&mut self, rt: &R, alloc: Global) -> bool {
        let answer = self.serve(rt, alloc);
        let is_told = is_told_by(&self.gate, &answer);
        drop(answer);
        is_told
    }

    /// Checks whether the gate held commands of two connections at once.
    pub(crate) fn has_met(&self) -> bool {
        self.gate.has_met()
    }

    /// Returns the number of bytes that were written, if they are a prefix of these.
    pub(crate) fn part_of(&self, whole: &[u8]) -> Option<usize> {
        match self.sink.bytes() {
            Some(written) if whole.starts_with(written) => Some(written.len()),
            _ => None,
        }
    }
}

// Checks whether this answer has a journal, and the gate was passed as often as its holds say.
fn is_told_by(gate: &Watch, answer: &Result<Answer, Failure>) -> bool {
    match answer {
        Ok(Answer::Served(journal)) => gate.is_told_by(journal.holds()),
        Ok(Answer::Tested(journal, _)) => gate.is_told_by(journal.holds()),
        _ => false,
    }
}
