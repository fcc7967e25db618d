//! Serves a recorded capture of memcached text traffic.
#![tactic(auto)]

use std::io::BufWriter;
use std::mem;
use std::process::ExitCode;
use zy_base::{NoMemory, Ungated};
use zy_shell::{StdSink, StdSource, without_memory, words};
use zygos_run::{serve, status};

// The size of the buffer of standard output; longer pieces are written at once.
const BUFFER: usize = 65_536;

fn main(rt: HostRuntime) -> ExitCode {
    let alloc = rt.alloc();
    match words(&rt, alloc) {
        Ok(words) => {
            let Ok(output) = BufWriter::with_capacity(alloc, BUFFER, rt.stdout()) else {
                drop(words);
                return without_memory(rt.stderr(), b"zygos");
            };
            let answer = serve(
                &rt,
                alloc,
                words.as_slice(),
                &mut StdSource::new(rt.stdin()),
                &mut StdSink::new(output),
                &mut StdSink::new(rt.stderr()),
                &Ungated,
            );
            let status = status(&answer);
            // The process ends, so the journal is not freed entry by entry.
            mem::forget(answer);
            ExitCode::from(status)
        }
        Err(NoMemory) => without_memory(rt.stderr(), b"zygos"),
    }
}
