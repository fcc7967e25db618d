//! What the real streams do.
use crate::sure::must;
use std::io;
use std::io::{Cursor, ErrorKind, Write};
use zy_base::{Sink, Source};
use zy_shell::{StdSink, StdSource};

// Checks whether a reader's bytes are given, the number for which there is room.
fn is_read() -> bool {
    let mut source = StdSource::new(Cursor::new(b"abc".as_slice()));
    let mut buffer = [0u8; 2];
    matches!(source.read(&mut buffer), Ok(2)) && buffer[0] == b'a' && buffer[1] == b'b'
}

#[test]
fn a_read_is_passed_on(rt: HostRuntime) {
    must(&rt, is_read());
}

// Checks whether a writer takes the bytes for which it has room, and then fails.
fn is_written() -> bool {
    let mut room = [0u8; 2];
    let mut sink = StdSink::new(room.as_mut_slice());
    let first = matches!(sink.write(b"abc"), Ok(2));
    first && sink.write(b"c").is_err()
}

#[test]
fn writes_are_passed_on(rt: HostRuntime) {
    must(&rt, is_written());
}

// Takes every byte, and fails to flush.
#[derive(Drop)]
struct Stuck;

impl Write for Stuck {
    fn write(&mut self, from: &[u8]) -> io::Result<usize> {
        Ok(from.len())
    }

    fn flush(&mut self) -> io::Result<()> {
        Err(io::Error::from(ErrorKind::Other))
    }
}

#[test]
fn to_finish_is_to_flush(rt: HostRuntime) {
    let mut sink = StdSink::new(Stuck);
    must(&rt, sink.finish().is_err());
}
