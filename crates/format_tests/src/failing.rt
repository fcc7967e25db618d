//! Sources and sinks that fail at one call.
ghost use Rattle.std.specs.Prelude.{◌≤◌};

use std::alloc::Global;
use zy_base::{Blob, CallNumbers, MemSink, MemSource, NoMemory};

// Returns the number of one call.
fn only(alloc: Global, number: u64) -> Result<CallNumbers, NoMemory> {
    let mut numbers = CallNumbers::new(alloc);
    match numbers.push(number) {
        Ok(()) => Ok(numbers),
        Err((number, refused)) => {
            drop(number);
            drop(numbers);
            Err(refused)
        }
    }
}

/// Makes a source of these bytes that gives at most `most` bytes a read, and whose read of this
/// number fails.
pub fn source_of(
    alloc: Global,
    bytes: &[u8],
    most: usize,
    number: u64,
) -> Result<MemSource, NoMemory>
    requires some { 1 ≤ most }
{
    let numbers = only(alloc, number)?;
    match Blob::copy_of(alloc, bytes) {
        Ok(bytes) => Ok(MemSource::new(bytes, most, numbers)),
        Err(refused) => {
            drop(numbers);
            Err(refused)
        }
    }
}

/// Makes a sink that takes at most `most` bytes a call, and whose call of this number fails.
pub fn sink_of(alloc: Global, most: usize, number: u64) -> Result<MemSink, NoMemory>
    requires some { 1 ≤ most }
{
    let numbers = only(alloc, number)?;
    MemSink::new(alloc, 1_000, most, numbers)
}
