//! Cutting frames: generated traffic is fed to a framer in pieces of one length.
use crate::clock::nanos;
use crate::done::Done;
use std::alloc::Global;
use std::time::CpuClock;
use zy_base::{Blob, NoMemory};
use zy_frame::{Framer, Frames};

// How often the commands of the generated traffic are repeated before it begins again.
const ROUNDS: u32 = 4_000;

/// Times `bytes` bytes in pieces of this length, counted in frames.
pub(crate) fn measured<R: CpuClock>(
    rt: &R,
    alloc: Global,
    bytes: u64,
    piece: u64,
) -> Result<Done, NoMemory> {
    let traffic = traffic(alloc)?;
    let start = nanos(rt);
    let counted = count_frames(alloc, &traffic, bytes, piece);
    let spent = nanos(rt).saturating_sub(start);
    drop(traffic);
    Ok(Done {
        count: counted?,
        nanos: spent,
    })
}

/// Makes a text of commands of a few kinds, again and again.
pub(crate) fn traffic(alloc: Global) -> Result<Blob, NoMemory> {
    let mut text = Blob::new(alloc);
    match append_all(&mut text) {
        Ok(()) => Ok(text),
        Err(e) => {
            drop(text);
            Err(e)
        }
    }
}

// Appends the commands. The parts of the text then share its bytes.
fn append_all(text: &mut Blob) -> Result<(), NoMemory> {
    for _ in 0..ROUNDS {
        text.append(b"get connection:1234:key:5678\r\n")?;
        text.append(b"set connection:1234:key:5678 77 3600 100\r\n")?;
        text.append(&[b'v'; 100])?;
        text.append(b"\r\nincr connection:1234:count 7\r\n")?;
        text.append(b"gets connection:1234:key:1 connection:1234:key:2 connection:1234:key:3\r\n")?;
        text.append(b"delete connection:1234:key:5678 noreply\r\n")?;
    }
    text.share()
}

// Returns the number of frames in `bytes` bytes of the traffic, which begins again at its end, in
// pieces of this length.
fn count_frames(alloc: Global, traffic: &Blob, bytes: u64, piece: u64) -> Result<u64, NoMemory> {
    let mut framer = Framer::new(alloc);
    let mut frames = Frames::new(alloc);
    let counted = feed_pieces(&mut framer, &mut frames, traffic, bytes, piece);
    drop(framer);
    drop(frames);
    counted
}

// Counts these frames, cut by this framer.
fn feed_pieces(
    framer: &mut Framer,
    frames: &mut Frames,
    traffic: &Blob,
    bytes: u64,
    piece: u64,
) -> Result<u64, NoMemory> {
    let mut count = 0u64;
    let mut left = bytes as usize;
    let mut at = 0;
    while left > 0 {
        if at >= traffic.bytes().len() {
            at = 0;
        }
        let taken = (piece as usize).min(traffic.bytes().len() - at).min(left);
        if taken == 0 {
            break;
        }
        let fresh = traffic.part(at, at + taken)?;
        let fed = framer.feed(&fresh, frames);
        drop(fresh);
        fed?;
        count = count.wrapping_add(drained(frames));
        at += taken;
        left -= taken;
    }
    Ok(count)
}

// Takes all frames, and returns their number.
fn drained(frames: &mut Frames) -> u64 {
    let mut count = 0u64;
    for _ in 0..frames.len() {
        if let Some(frame) = frames.next() {
            drop(frame);
            count = count.wrapping_add(1);
        }
    }
    count
}
