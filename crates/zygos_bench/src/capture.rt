//! Reading a capture from standard input.
use crate::clock::nanos;
use crate::done::Done;
use std::alloc::Global;
use std::io::Read;
use std::time::CpuClock;
use zy_base::NoMemory;
use zy_capture::{FeedFault, Reader, Record};
use zy_read::Fed;

/// Times the reading of a capture to its end, counted in bytes of segments.
pub(crate) fn measured<R: CpuClock, I: Read>(
    rt: &R,
    alloc: Global,
    input: &mut I,
) -> Result<Done, NoMemory> {
    let mut reader = Reader::new(alloc);
    let mut tally = Tally { bytes: 0 };
    let start = nanos(rt);
    let fed = read_all(input, &mut reader, &mut tally);
    let spent = nanos(rt).saturating_sub(start);
    let ended = reader.end();
    drop(reader);
    match (fed, ended) {
        (Ok(()), Ok(())) => Ok(Done {
            count: tally.bytes,
            nanos: spent,
        }),
        _ => Err(NoMemory),
    }
}

// How many bytes of segments were read.
#[derive(Clone, Copy)]
struct Tally {
    bytes: u64,
}

impl Tally {
    fn count(&mut self, found: &Record) {
        if let Record::Segment(segment) = found {
            self.bytes = self
                .bytes
                .saturating_add(segment.bytes.bytes().len() as u64);
        }
    }
}

// Feeds all of a piece.
fn feed_all(reader: &mut Reader, tally: &mut Tally, bytes: &[u8]) -> Result<(), FeedFault> {
    let mut at = 0;
    while at < bytes.len() {
        let Fed { taken, answer } = reader.feed_piece(&bytes[at..]);
        at += taken;
        match answer {
            Ok(None) => return Ok(()),
            Ok(Some(found)) => {
                tally.count(&found);
                drop(found);
            }
            Err(fault) => return Err(fault),
        }
    }
    Ok(())
}

// Reads to the end of the input.
fn read_all<R: Read>(
    input: &mut R,
    reader: &mut Reader,
    tally: &mut Tally,
) -> Result<(), FeedFault> {
    let mut buffer = [0u8; 65_536];
    for _ in 0..u64::MAX {
        match input.read(&mut buffer) {
            Ok(0) | Err(_) => return Ok(()),
            Ok(n) => feed_all(reader, tally, &buffer[..n])?,
        }
    }
    Ok(())
}
