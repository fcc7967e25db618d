//! The clocks.
use std::time::{Clock, CpuClock, Instant};

/// Returns the processor time so far, in nanoseconds.
pub(crate) fn nanos<R: CpuClock>(rt: &R) -> u64 {
    match rt.process_cpu_time() {
        Ok(time) => u64::try_from(time.as_nanos()).unwrap_or(0),
        Err(_) => 0,
    }
}

/// Returns the time since then, in nanoseconds.
pub(crate) fn since<R: Clock>(rt: &R, start: Instant) -> u64 {
    match start.elapsed(rt) {
        Ok(time) => u64::try_from(time.as_nanos()).unwrap_or(0),
        Err(_) => 0,
    }
}
