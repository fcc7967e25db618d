//! Reading commands: generated traffic is cut, the command of each frame is read, and its first call is made.
use crate::clock::nanos;
use crate::done::Done;
use crate::frames::traffic;
use mc_parse::call_at;
use std::alloc::Global;
use std::time::CpuClock;
use zy_base::{Blob, NoMemory};
use zy_frame::{Frame, Framer, Frames, meaning};

// The bytes of a piece.
const PIECE: usize = 1_400;

// The number of shards.
const SHARDS: u32 = 16;

/// Returns the traffic `rounds` times, counted in commands.
pub(crate) fn measured<R: CpuClock>(rt: &R, alloc: Global, rounds: u64) -> Result<Done, NoMemory> {
    let traffic = traffic(alloc)?;
    let start = nanos(rt);
    let counted = read_rounds(alloc, &traffic, rounds);
    let spent = nanos(rt).saturating_sub(start);
    drop(traffic);
    Ok(Done {
        count: counted?,
        nanos: spent,
    })
}

// Reads the number of commands in `rounds` rounds.
fn read_rounds(alloc: Global, traffic: &Blob, rounds: u64) -> Result<u64, NoMemory> {
    let mut framer = Framer::new(alloc);
    let mut frames = Frames::new(alloc);
    let mut counted = Ok(0u64);
    for _ in 0..rounds {
        counted = read_pieces(alloc, &mut framer, &mut frames, traffic);
    }
    drop(framer);
    drop(frames);
    match counted {
        Ok(count) => Ok(count.wrapping_mul(rounds)),
        Err(e) => Err(e),
    }
}

// Reads the number of commands in a round.
fn read_pieces(
    alloc: Global,
    framer: &mut Framer,
    frames: &mut Frames,
    traffic: &Blob,
) -> Result<u64, NoMemory> {
    let mut count = 0u64;
    let mut at = 0;
    while at < traffic.bytes().len() {
        let taken = PIECE.min(traffic.bytes().len() - at);
        let piece = traffic.part(at, at + taken)?;
        let fed = framer.feed(&piece, frames);
        drop(piece);
        fed?;
        count = count.wrapping_add(read_all(alloc, frames)?);
        at += taken;
    }
    Ok(count)
}

// Reads the commands of all frames, and answers how many there were.
fn read_all(alloc: Global, frames: &mut Frames) -> Result<u64, NoMemory> {
    let mut count = 0u64;
    for _ in 0..frames.len() {
        if let Some(frame) = frames.next() {
            read(alloc, frame)?;
            count = count.wrapping_add(1);
        }
    }
    Ok(count)
}

// Reads the command of a frame, and makes its first call.
fn read(alloc: Global, frame: Frame) -> Result<(), NoMemory> {
    match meaning(alloc, frame) {
        Ok(command) => {
            let made = call_at(&command, 0, SHARDS);
            drop(command);
            match made {
                Ok(call) => {
                    drop(call);
                    Ok(())
                }
                Err(e) => Err(e),
            }
        }
        Err((frame, e)) => {
            drop(frame);
            Err(e)
        }
    }
}
