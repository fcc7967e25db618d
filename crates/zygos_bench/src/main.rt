//! Times one part of the program: the first words say which, and the numbers after them how much of it.
#![tactic(auto)]

mod calls;
mod capture;
mod clock;
mod conn;
mod done;
mod frames;
mod parse;
mod shard;
mod shuffle;
mod store;
mod words;

use done::Done;
use std::alloc::Global;
use std::io::Read;
use std::process::ExitCode;
use std::sync::Wait;
use std::thread::Threads;
use std::time::{Clock, CpuClock};
use words::{Asked, What, read_words};
use zy_base::NoMemory;

fn main(rt: HostRuntime) -> ExitCode {
    let asked = read_words(&rt);
    match measured(&rt, rt.alloc(), &mut rt.stdin(), asked) {
        Ok(done) => {
            if done.count == 0 {
                return ExitCode::from(0);
            }
            let _ = println!(rt; "{} in {} ns", done.count, done.nanos);
            ExitCode::from(0)
        }
        Err(NoMemory) => ExitCode::from(6),
    }
}

// Does what is asked for; nothing if no part is named.
fn measured<R: Threads + Wait + Clock + CpuClock + Sync, I: Read>(
    rt: &R,
    alloc: Global,
    input: &mut I,
    asked: Asked,
) -> Result<Done, NoMemory> {
    let Asked { what, one, two } = asked;
    match what {
        Some(What::Shard) => shard::measured(rt, alloc, one, two),
        Some(What::Frames) => frames::measured(rt, alloc, one, two),
        Some(What::Parse) => parse::measured(rt, alloc, one),
        Some(What::Capture) => capture::measured(rt, alloc, input),
        Some(What::Store(part)) => store::measured(rt, alloc, part, one, two),
        Some(What::Shuffle(queue)) => shuffle::measured(rt, alloc, queue, one, two),
        Some(What::Conn(part)) => conn::measured(rt, alloc, part, one, two),
        None => Ok(Done { count: 0, nanos: 0 }),
    }
}
