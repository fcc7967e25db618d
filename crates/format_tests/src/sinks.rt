//! Sinks in memory, and the replies that are written to one that fails.
use crate::failing::sink_of;
use std::alloc::Global;
use zy_base::{Blob, NoMemory, SureSink};
use zy_capture::{Outputs, write_replies};

#[test]
fn a_sure_sink_finds_its_room(rt: HostRuntime) {
    let has_room = match SureSink::new(rt.alloc(), 4) {
        Ok(sink) => {
            drop(sink);
            true
        }
        Err(_) => false,
    };
    assert!(rt; has_room);
}

const REPLIES: &[u8] = b"ZYGREP1\nR\0\0\0\0\0\0\0\0\0\0\0\x02okE";

// Returns the output of one connection.
fn one_output(alloc: Global) -> Result<Outputs, NoMemory> {
    let bytes = Blob::copy_of(alloc, b"ok")?;
    let mut outputs = Outputs::new(alloc, 1);
    match outputs.add(0, bytes) {
        Ok(()) => Ok(outputs),
        Err((bytes, refused)) => {
            drop(bytes);
            drop(outputs);
            Err(refused)
        }
    }
}

// Returns the bytes of the replies that a sink took, byte by byte, when its call of this number
// fails.
fn replies_are(
    alloc: Global,
    outputs: &Outputs,
    number: u64,
    text: &[u8],
) -> Result<bool, NoMemory> {
    let mut sink = sink_of(alloc, 1, number)?;
    let is_whole = write_replies(&mut sink, outputs).is_ok();
    let took = sink.bytes() == Some(text);
    drop(sink);
    Ok(took && is_whole == (text.len() == REPLIES.len()))
}

// Checks whether the replies are cut at the call that fails, and whole if that is the call after
// the last byte.
fn replies_are_cut(alloc: Global, outputs: &Outputs) -> Result<bool, NoMemory> {
    let is_cut = replies_are(alloc, outputs, 16, &REPLIES[..16])?;
    let is_whole = replies_are(alloc, outputs, REPLIES.len() as u64, REPLIES)?;
    Ok(is_cut && is_whole)
}

fn replies_are_written(alloc: Global) -> Result<bool, NoMemory> {
    let outputs = one_output(alloc)?;
    let are_cut = replies_are_cut(alloc, &outputs);
    drop(outputs);
    are_cut
}

#[test]
fn replies_are_written_up_to_the_call_that_fails(rt: HostRuntime) {
    assert!(rt; matches!(replies_are_written(rt.alloc()), Ok(true)));
}
