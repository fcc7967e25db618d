//! Certifies that a recording of memcached text traffic is linearizable.
#![tactic(auto)]

use std::process::ExitCode;
use zy_base::NoMemory;
use zy_shell::{StdSink, StdSource, without_memory, words};
use zygos_linear::{serve_linear, status};

fn main(rt: HostRuntime) -> ExitCode {
    let alloc = rt.alloc();
    match words(&rt, alloc) {
        Ok(words) => {
            let answer = serve_linear(
                alloc,
                words.as_slice(),
                &mut StdSource::new(rt.stdin()),
                &mut StdSink::new(rt.stdout()),
                &mut StdSink::new(rt.stderr()),
            );
            drop(words);
            ExitCode::from(status(&answer))
        }
        Err(NoMemory) => without_memory(rt.stderr(), b"linear"),
    }
}
