//! Judges a recording of memcached text traffic: whether some order of its calls explains it.
#![tactic(auto)]

use std::process::ExitCode;
use zy_base::NoMemory;
use zy_shell::{StdSink, StdSource, without_memory, words};
use zygos_judge::{serve_judge, status};

fn main(rt: HostRuntime) -> ExitCode {
    let alloc = rt.alloc();
    match words(&rt, alloc) {
        Ok(words) => {
            let answer = serve_judge(
                alloc,
                words.as_slice(),
                &mut StdSource::new(rt.stdin()),
                &mut StdSink::new(rt.stdout()),
                &mut StdSink::new(rt.stderr()),
            );
            drop(words);
            ExitCode::from(status(&answer))
        }
        Err(NoMemory) => without_memory(rt.stderr(), b"judge"),
    }
}
