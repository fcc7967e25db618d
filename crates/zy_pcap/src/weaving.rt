//! Bytes that come, between runs that came before them.
ghost use Rattle.std.specs.Prelude.{◌≡◌, ◌+◌, ◌<◌, ◌≤◌, ◌^◌, ◌++◌, length, IfOk, OnOk};
ghost use Rattle.zy_pcap.specs.Held.{Rise, woven_at, AreAll, next_of};

use std::alloc::Global;
use std::collections::btree_map::Range;
use zy_base::{Blob, NoMemory};

// Returns the bytes from an offset on, up to a limit or the first one that is missing: those of
// runs, which have precedence, and some that begin at that offset.
//
// Each of these bytes is copied once, and no run is looked at beyond the first one after a gap.
pub(crate) fn woven(
    alloc: Global,
    runs: Range<'_, u32, Blob>,
    from: usize,
    bytes: &[u8],
    limit: usize,
) -> Result<Vec<u8>, NoMemory>
    requires rise { Rise runs }
    requires within { from + length bytes.now ≤ limit }
    requires small { limit ≤ 2 ^ 32 }
    ensures value { IfOk result (λ woven. AreAll (woven_at runs.entry bytes.now from) from limit woven.items) }
{
    let mut woven = match Vec::with_capacity(alloc, bytes.len()) {
        Ok(woven) => woven,
        Err(_) => return Err(NoMemory),
    };
    for (begin, run) in runs {
        let begin = *begin as usize;
        if let Err(refused) = append(&mut woven, from, from, bytes, begin) {
            drop(woven);
            return Err(refused);
        }
        if from + woven.len() < begin {
            return Ok(woven);
        }
        if let Err(refused) = append(&mut woven, from, begin, run.bytes(), limit) {
            drop(woven);
            return Err(refused);
        }
    }
    match append(&mut woven, from, from, bytes, limit) {
        Ok(()) => Ok(woven),
        Err(refused) => {
            drop(woven);
            Err(refused)
        }
    }
}

// Appends the bytes that come next after a row, up to an end. The row and the bytes begin at given
// offsets.
fn append(
    woven: &mut Vec<u8>,
    from: usize,
    begin: usize,
    bytes: &[u8],
    end: usize,
) -> Result<(), NoMemory>
    requires next { begin ≤ from + length woven.old.items }
    requires small { from + length woven.old.items ≤ 2 ^ 32 }
    ensures ok { OnOk result (woven.new.items
        ≡ woven.old.items ++ next_of (from + length woven.old.items) begin bytes.now end) }
{
    let first = from + woven.len() - begin;
    let end = bytes.len().min(end.saturating_sub(begin));
    if first >= end {
        return Ok(());
    }
    match woven.extend_from_slice(&bytes[first..end]) {
        Ok(()) => Ok(()),
        Err(_) => Err(NoMemory),
    }
}
