//! The calls, sorted.

use crate::numbers::small;
use crate::sessions::end_of;
use mc_calls::Call;
use std::alloc::Global;
use zy_base::NoMemory;
use zy_refute::Observed;

/// The calls, sorted.
#[derive(Drop)]
pub struct Sorted {
    /// The sure calls, by their ends.
    pub by_end: Vec<u32>,
    /// All calls, by their sendings.
    pub by_sent: Vec<u32>,
    /// The flushes, by their sendings.
    pub flushes: Vec<u32>,
}

// Sorts the calls.
pub(crate) fn sorted_of(alloc: Global, observed: &[Observed]) -> Result<Sorted, NoMemory> {
    let mut sorted = Sorted {
        by_end: Vec::new(alloc),
        by_sent: Vec::new(alloc),
        flushes: Vec::new(alloc),
    };
    match sorted.add_all(alloc, observed) {
        Ok(()) => Ok(sorted),
        Err(refused) => {
            drop(sorted);
            Err(refused)
        }
    }
}

impl Sorted {
    // Adds all calls.
    fn add_all(&mut self, alloc: Global, observed: &[Observed]) -> Result<(), NoMemory> {
        add_sorted(alloc, observed, By::End, &mut self.by_end)?;
        add_sorted(alloc, observed, By::Sending, &mut self.by_sent)?;
        for call in &self.by_sent {
            if let Some(one) = observed.get(*call as usize)
                && matches!(one.call, Call::Flush)
            {
                self.flushes.push(*call)?;
            }
        }
        Ok(())
    }
}

// What calls are sorted by.
#[derive(Clone, Copy, PartialEq, Eq)]
enum By {
    Sending,
    End,
}

// Adds calls by the times at which they were sent, or the sure ones by their ends.
fn add_sorted(
    alloc: Global,
    observed: &[Observed],
    by: By,
    calls: &mut Vec<u32>,
) -> Result<(), NoMemory> {
    let mut timed = Vec::new(alloc);
    let sorted = sort(observed, by, &mut timed, calls);
    drop(timed);
    sorted
}

// The same, with a list for the times.
fn sort(
    observed: &[Observed],
    by: By,
    timed: &mut Vec<(u64, u32)>,
    calls: &mut Vec<u32>,
) -> Result<(), NoMemory> {
    for call in 0..observed.len() {
        let one = &observed[call];
        match by {
            By::Sending => timed.push((one.sent, small(call)))?,
            By::End if one.sure => timed.push((end_of(one), small(call)))?,
            By::End => {}
        }
    }
    timed.sort()?;
    for pair in timed {
        calls.push(pair.1)?;
    }
    Ok(())
}
