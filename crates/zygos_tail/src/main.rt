//! Serves requests that come at random times, on threads or in virtual time, and prints how long
//! they took.
#![tactic(auto)]

mod board;
mod clock;
mod draws;
mod driving;
mod feeder;
mod load;
mod notes;
mod offering;
mod report;
mod runs;
mod services;
mod times;
mod virtual_time;
mod words;
mod zeros;

use runs::{print_run, print_virtual_run};
use std::process::ExitCode;
use words::{Way, read_load, read_prices, read_way};
use zy_base::NoMemory;

fn main(rt: HostRuntime) -> ExitCode {
    let ran = match read_way(&rt) {
        Some(Way::Threads) => print_run(&rt, rt.alloc(), read_load(&rt), &mut rt.stdin()),
        Some(Way::Virtual) => {
            let (load, prices) = (read_load(&rt), read_prices(&rt));
            print_virtual_run(&rt, rt.alloc(), load, prices, &mut rt.stdin())
        }
        None => Ok(()),
    };
    match ran {
        Ok(()) => ExitCode::from(0),
        Err(NoMemory) => ExitCode::from(6),
    }
}
