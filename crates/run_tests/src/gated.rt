//! Runs with gates: the holds of the journal are what happened, and two threads hold commands at once.
use crate::serving::{Failing, Given};
use crate::sure::{must, sure};
use std::alloc::Global;
use std::process::Abort;
use std::sync::Wait;
use std::thread::Threads;
use zy_base::Blob;

const TWO_OF_THREE: &[u8] =
    b"ZYGCAP1\n\0\0\0\x03S\0\0\0\0\0\0\0\x09version\r\nS\0\0\0\x02\0\0\0\x09version\r\nE";

const FOUR_OF_SEVEN: &[u8] =
    b"ZYGCAP1\n\0\0\0\x07S\0\0\0\0\0\0\0\x09version\r\nS\0\0\0\x02\0\0\0\x09version\r\n\
    S\0\0\0\x04\0\0\0\x09version\r\nS\0\0\0\x06\0\0\0\x09version\r\nE";

// Words, and a capture.
struct Case(&'static [&'static [u8]], &'static [u8]);

// One core; two that steal, in order and in a generated order; two on two threads, which rest or
// not; and a test run.
const CASES: [Case; 7] = [
    Case(&[b"run", b"--cores=1"], FOUR_OF_SEVEN),
    Case(&[b"run", b"--cores=2", b"--threads=1"], TWO_OF_THREE),
    Case(&[b"run", b"--cores=2", b"--threads=1"], FOUR_OF_SEVEN),
    Case(
        &[b"run", b"--cores=2", b"--threads=1", b"--order=42"],
        FOUR_OF_SEVEN,
    ),
    Case(&[b"run", b"--cores=2", b"--threads=2"], FOUR_OF_SEVEN),
    Case(
        &[b"run", b"--cores=2", b"--threads=2", b"--rest=1"],
        FOUR_OF_SEVEN,
    ),
    Case(&[b"self", b"--conns=7", b"--cores=2", b"--threads=1"], b""),
];

fn is_told<R: Threads + Wait + Abort + Sync>(rt: &R, alloc: Global, case: &Case) -> bool {
    let mut given = Given::ungated(rt, alloc, case.0, case.1, Failing::None);
    let is_told = given.is_told(rt, alloc);
    drop(given);
    is_told
}

#[test]
fn each_core_passes_the_gate_as_often_as_its_holds_say(rt: HostRuntime) {
    for case in &CASES {
        must(&rt, is_told(&rt, rt.alloc(), case));
    }
}

// Makes a capture in which connections 0 and 2 send 640 commands each.
fn many_commands(rt: &impl Abort, alloc: Global) -> Blob {
    let mut bytes = Blob::new(alloc);
    append(rt, &mut bytes, b"ZYGCAP1\n\0\0\0\x03S\0\0\0\0\0\0\x16\x80");
    append(rt, &mut bytes, b"S\0\0\0\x02\0\0\x16\x80");
    sure(rt, bytes.append(b"E"));
    bytes
}

// Appends this head, and 640 commands.
fn append(rt: &impl Abort, bytes: &mut Blob, head: &[u8]) {
    sure(rt, bytes.append(head));
    for _ in 0..640 {
        sure(rt, bytes.append(b"version\r\n"));
    }
}

const WORDS: [&[u8]; 3] = [b"run", b"--cores=2", b"--threads=2"];

// Checks whether two threads hold commands of both at once, and the gate was passed as often as the
// holds say.
fn has_met<R: Threads + Wait + Abort + Sync>(rt: &R, alloc: Global) -> bool {
    let capture = many_commands(rt, alloc);
    let mut given = Given::new(rt, alloc, &WORDS, capture, Failing::None, true);
    let is_told = given.is_told(rt, alloc);
    let has_met = given.has_met();
    drop(given);
    is_told && has_met
}

#[test]
fn two_threads_hold_commands_at_once(rt: HostRuntime) {
    must(&rt, has_met(&rt, rt.alloc()));
}
