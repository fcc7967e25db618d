//! The words of the command line.
use crate::{conn, shuffle, store};
use std::env::Env;
use zy_base::read_number;

/// What is timed.
#[derive(Clone, Copy)]
pub(crate) enum What {
    Shard,
    Frames,
    Parse,
    Capture,
    Store(store::Part),
    Shuffle(shuffle::Queue),
    Conn(conn::Part),
}

/// What is to be timed, if the words name it, and the numbers after them, 0 for each that is left out.
#[derive(Clone, Copy)]
pub(crate) struct Asked {
    pub(crate) what: Option<What>,
    pub(crate) one: u64,
    pub(crate) two: u64,
}

/// Reads the words of the command line.
pub(crate) fn read_words<R: Env>(rt: &R) -> Asked {
    let (mut one, mut two) = ([0u8; 20], [0u8; 20]);
    let what = what_named(word(rt, 1, &mut one), word(rt, 2, &mut two));
    let numbers = match what {
        Some(What::Store(_)) | Some(What::Shuffle(_)) | Some(What::Conn(_)) => 3,
        _ => 2,
    };
    Asked {
        what,
        one: number(rt, numbers),
        two: number(rt, numbers + 1),
    }
}

// Returns the word at this place; empty if there is none, or if it is longer than any that has a
// meaning.
fn word<'a, R: Env>(rt: &R, place: usize, buffer: &'a mut [u8; 20]) -> &'a [u8] {
    match rt.arg(place, buffer) {
        Ok(length) if length <= 20 => &buffer[..length],
        _ => &[],
    }
}

// Returns what the first two words name.
fn what_named(word: &[u8], part: &[u8]) -> Option<What> {
    match (word, part) {
        (b"shard", _) => Some(What::Shard),
        (b"frames", _) => Some(What::Frames),
        (b"parse", _) => Some(What::Parse),
        (b"capture", _) => Some(What::Capture),
        (b"store", b"shard") => Some(What::Store(store::Part::Shard)),
        (b"store", b"pass") => Some(What::Store(store::Part::Pass)),
        (b"store", b"threads") => Some(What::Store(store::Part::Threads)),
        (b"shuffle", b"ring") => Some(What::Shuffle(shuffle::Queue::Ring)),
        (b"shuffle", b"lock") => Some(What::Shuffle(shuffle::Queue::Lock)),
        (b"conn", b"shard") => Some(What::Conn(conn::Part::Shard)),
        (b"conn", b"block") => Some(What::Conn(conn::Part::Block)),
        (b"conn", b"home") => Some(What::Conn(conn::Part::Home)),
        _ => None,
    }
}

// Reads a number from a word of the command line; 0 if it is none.
fn number<R: Env>(rt: &R, place: usize) -> u64 {
    let mut buffer = [0u8; 20];
    read_number(word(rt, place, &mut buffer)).unwrap_or(0)
}
