//! The clock.
use std::time::Clock;

/// Returns the time since some start, in nanoseconds.
pub(crate) fn monotonic<R: Clock>(rt: &R) -> u64 {
    match rt.monotonic() {
        Ok(time) => u64::try_from(time.as_nanos()).unwrap_or(u64::MAX),
        Err(_) => u64::MAX,
    }
}
