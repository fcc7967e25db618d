//! The words of the command line.
use crate::load::{Load, Service, Shape};
use crate::virtual_time::{Parts, Prices, Waits};
use std::env::Env;
use zy_base::read_number;

/// How requests are served.
#[derive(Clone, Copy)]
pub(crate) enum Way {
    /// On a thread for each core.
    Threads,
    /// On one thread, in virtual time.
    Virtual,
}

/// Reads from the first word how requests are to be served; `None` if it names no way.
pub(crate) fn read_way<R: Env>(rt: &R) -> Option<Way> {
    let mut buffer = [0u8; 20];
    match rt.arg(1, &mut buffer) {
        Ok(length) if length <= 20 => way_named(&buffer[..length]),
        _ => None,
    }
}

/// Reads the load from the numbers after the first word: the cores; 1 if half of the load is on the first one; the
/// shape of the service times, and their mean in nanoseconds; the picoseconds from one request to the next; the number
/// of requests; and the number from which all random numbers are generated.
pub(crate) fn read_load<R: Env>(rt: &R) -> Load {
    Load {
        cores: number(rt, 2).max(1).min(64) as u32,
        skewed: number(rt, 3) == 1,
        service: Service {
            shape: match number(rt, 4) {
                0 => Shape::Fixed,
                1 => Shape::Exponential,
                2 => Shape::Bimodal,
                _ => Shape::Given,
            },
            mean: number(rt, 5).min(1 << 30),
        },
        gap: number(rt, 6).min(1 << 40),
        count: number(rt, 7).min(1 << 24),
        number: number(rt, 8),
    }
}

/// Reads the prices of virtual time from the numbers after the load: how many turns are printed; and the nanoseconds of
/// each thing that a turn does, of a pause and of a yield, in the order of `Parts` and `Waits`.
pub(crate) fn read_prices<R: Env>(rt: &R) -> Prices {
    Prices {
        samples: number(rt, 9).min(1 << 24),
        parts: Parts {
            turns: number(rt, 10),
            items: number(rt, 11),
            collected: number(rt, 12),
            holds: number(rt, 13),
            thefts: number(rt, 14),
            commands: number(rt, 15),
            looks: number(rt, 16),
            moved: number(rt, 17),
        },
        waits: Waits {
            pause: number(rt, 18),
            yielding: number(rt, 19),
        },
    }
}

// Returns the way that a word names.
fn way_named(word: &[u8]) -> Option<Way> {
    match word {
        b"threads" => Some(Way::Threads),
        b"virtual" => Some(Way::Virtual),
        _ => None,
    }
}

// Reads a number from a word of the command line; 0 if it is none.
fn number<R: Env>(rt: &R, place: usize) -> u64 {
    let mut buffer = [0u8; 20];
    match rt.arg(place, &mut buffer) {
        Ok(length) if length <= 20 => read_number(&buffer[..length]).unwrap_or(0),
        _ => 0,
    }
}
