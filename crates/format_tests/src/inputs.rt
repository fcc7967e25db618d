//! The input of a check, from sources of which one read fails.
use crate::failing::source_of;
use std::alloc::Global;
use zy_base::NoMemory;
use zy_input::{Stop, read_parts, read_streams};

// A capture of one segment, a journal without records, and a replies file: 42 bytes.
const INPUT: &[u8] = b"ZYGCAP1\n\0\0\0\x01S\0\0\0\0\0\0\0\x02geEZYGJRN1\nEZYGREP1\nE";

// Returns why an input is read no further.
fn stop_of<T: Drop>(read: Result<T, Stop>) -> Option<Stop> {
    match read {
        Ok(value) => {
            drop(value);
            None
        }
        Err(stop) => Some(stop),
    }
}

// Reads the input of a check, ten bytes a read; the read of this number fails.
fn check_stop(alloc: Global, number: u64) -> Result<Option<Stop>, NoMemory> {
    let mut source = source_of(alloc, INPUT, 10, number)?;
    let stop = stop_of(read_parts(alloc, &mut source));
    drop(source);
    Ok(stop)
}

#[test]
fn a_check_stops_at_the_read_that_fails(rt: HostRuntime) {
    for number in 0..6 {
        assert!(rt; matches!(check_stop(rt.alloc(), number), Ok(Some(Stop::ReadFault))));
    }
    assert!(rt; matches!(check_stop(rt.alloc(), 6), Ok(None)));
}

// Reads only the streams of that input, in the same way.
fn capture_stop(alloc: Global, number: u64) -> Result<Option<Stop>, NoMemory> {
    let mut source = source_of(alloc, INPUT, 10, number)?;
    let stop = stop_of(read_streams(alloc, &mut source));
    drop(source);
    Ok(stop)
}

#[test]
fn no_read_is_made_behind_the_end_of_a_capture(rt: HostRuntime) {
    assert!(rt; matches!(capture_stop(rt.alloc(), 2), Ok(Some(Stop::ReadFault))));
    assert!(rt; matches!(capture_stop(rt.alloc(), 3), Ok(None)));
}
