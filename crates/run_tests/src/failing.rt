//! Reads and writes that fail, each in turn: they end a run, and a report.
use crate::serving::{Failing, Given};
use crate::sure::must;
use std::alloc::Global;
use std::process::Abort;
use std::sync::Wait;
use std::thread::Threads;

const FIRST: &[u8] = b"ZYGCAP1\n\0\0\0\x01S\0\0\0\0\0\0\0\x17set a 0 0 1\r\nx\r\nget a\r\nE";

const REPLIES: &[u8] =
    b"ZYGREP1\nR\0\0\0\0\0\0\0\0\0\0\0\x1dSTORED\r\nVALUE a 0 1\r\nx\r\nEND\r\nE";

// A command, what it reads, and what it writes.
#[derive(Clone, Copy)]
struct Case {
    word: &'static [u8],
    given: &'static [u8],
    whole: &'static [u8],
    // The reads of the bytes given, and that of their end.
    reads: u64,
    // The writes of the bytes written; then the sink is finished.
    writes: u64,
}

const RUN: Case = Case {
    word: b"run",
    given: FIRST,
    whole: REPLIES,
    reads: 46,
    writes: 51,
};

const REPORT: Case = Case {
    word: b"report",
    given: b"ZYGJRN1\nE",
    whole: b"all           0           0           0           0           0\n",
    reads: 10,
    writes: 64,
};

// Three records of two connections, and the read of the third record's first byte.
const THREE: &[u8] =
    b"ZYGCAP1\n\0\0\0\x02S\0\0\0\0\0\0\0\x0dquit\r\nget a\r\nS\0\0\0\x01\0\0\0\x05get bS\0\0\0\x01\0\0\0\x02\r\nE";

const THIRD: u64 = 48;

// The exit status of a call, and the number of bytes that were written, if they are the first bytes
// of those to write.
#[derive(Clone, Copy)]
struct End {
    status: u8,
    written: Option<usize>,
}

impl End {
    fn is(self, status: u8, count: u64) -> bool {
        match self.written {
            Some(written) => self.status == status && written as u64 == count,
            None => false,
        }
    }
}

fn end_of<R: Threads + Wait + Abort + Sync>(
    rt: &R,
    alloc: Global,
    words: &[&[u8]],
    given: &[u8],
    whole: &[u8],
    failing: Failing,
) -> End {
    let mut given = Given::ungated(rt, alloc, words, given, failing);
    let status = given.status(rt, alloc);
    let written = given.part_of(whole);
    drop(given);
    End { status, written }
}

// Returns how a command ends.
fn end_of_case<R: Threads + Wait + Abort + Sync>(
    rt: &R,
    alloc: Global,
    case: Case,
    failing: Failing,
) -> End {
    end_of(rt, alloc, &[case.word], case.given, case.whole, failing)
}

// Checks whether a command ends as it should when this read fails.
fn is_ended_by_read<R: Threads + Wait + Abort + Sync>(
    rt: &R,
    alloc: Global,
    case: Case,
    call: u64,
) -> bool {
    let end = end_of_case(rt, alloc, case, Failing::Read(call));
    if call < case.reads {
        end.is(4, 0)
    } else {
        end.is(0, case.writes)
    }
}

// Checks whether a command ends as it should when this write fails; the last call is to finish.
fn is_ended_by_write<R: Threads + Wait + Abort + Sync>(
    rt: &R,
    alloc: Global,
    case: Case,
    call: u64,
) -> bool {
    let end = end_of_case(rt, alloc, case, Failing::Write(call));
    if call <= case.writes {
        end.is(5, call)
    } else {
        end.is(0, case.writes)
    }
}

#[test]
fn a_read_that_fails_ends_the_run(rt: HostRuntime) {
    for call in 0..47 {
        must(&rt, is_ended_by_read(&rt, rt.alloc(), RUN, call));
    }
}

#[test]
fn a_write_that_fails_ends_the_run(rt: HostRuntime) {
    for call in 0..53 {
        must(&rt, is_ended_by_write(&rt, rt.alloc(), RUN, call));
    }
}

#[test]
fn a_read_that_fails_ends_the_report(rt: HostRuntime) {
    for call in 0..11 {
        must(&rt, is_ended_by_read(&rt, rt.alloc(), REPORT, call));
    }
}

#[test]
fn a_write_that_fails_ends_the_report(rt: HostRuntime) {
    for call in 0..66 {
        must(&rt, is_ended_by_write(&rt, rt.alloc(), REPORT, call));
    }
}

// Words for three cores: on one thread, on several, and with cores that rest.
const WORDS: [[&[u8]; 4]; 4] = [
    [b"run", b"--cores=3", b"--rest=0", b"--threads=1"],
    [b"run", b"--cores=3", b"--rest=0", b"--threads=2"],
    [b"run", b"--cores=3", b"--rest=0", b"--threads=3"],
    [b"run", b"--cores=3", b"--rest=1", b"--threads=3"],
];

// Checks whether the feeder breaks at its third step, and the run ends.
fn is_broken<R: Threads + Wait + Abort + Sync>(rt: &R, alloc: Global, words: &[&[u8]]) -> bool {
    end_of(rt, alloc, words, THREE, REPLIES, Failing::Read(THIRD)).is(4, 0)
}

#[test]
fn a_feeder_that_breaks_at_its_third_step_ends_the_run(rt: HostRuntime) {
    for words in &WORDS {
        must(&rt, is_broken(&rt, rt.alloc(), words));
    }
}
