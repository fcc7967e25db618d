//! Checking whether a journal and outputs are those of a run.
ghost use Rattle.std.specs.Prelude.{◌≡◌, ◌≤◌, length, IfOk};
ghost use Rattle.zy_check.specs.Given.{Given, all_given};
ghost use Rattle.zy_check.specs.Cause.{HasVerdict};
ghost use Rattle.zy_check.specs.Checked.{IsCheckedAs};
ghost use Rattle.zy_check.specs.Missing.{FoundMissing};
ghost use Rattle.zy_check.specs.Walk.{AreTracked};

use crate::answered::{Answered, Checked};
use crate::files::Files;
use crate::holds::first_unheld;
use crate::missing::first_missing;
use crate::outputs::first_output;
use crate::track::Track;
use crate::verdict::{Cause, Verdict};
use crate::walk::first_wrong;
use std::alloc::Global;
use zy_base::NoMemory;
use zy_capture::{Outputs, Streams};
use zy_journal::Journal;

/// Checks whether a journal and outputs are those of a run of these streams on `shards` shards;
/// answers the first cause if they are not. May answer `NoMemory`, and does so if the commands or
/// the holds of a connection do not fit in 64 bits.
pub fn check(
    alloc: Global,
    streams: &Streams,
    journal: &Journal,
    outputs: &Outputs,
    shards: u32,
) -> Result<Verdict, NoMemory>
    requires some { 1 ≤ shards }
    requires limit { shards ≤ 256 }
    ensures verdict { IfOk result
        (HasVerdict (all_given shards streams.now journal.now outputs.now)) }
{
    match check_answered(alloc, streams, journal, outputs, shards)? {
        Checked::Yes(answered) => {
            drop(answered);
            Ok(Verdict::Yes)
        }
        Checked::No(cause) => Ok(Verdict::No(cause)),
    }
}

/// Checks the same, and answers for a run which of its commands are answered.
pub fn check_answered(
    alloc: Global,
    streams: &Streams,
    journal: &Journal,
    outputs: &Outputs,
    shards: u32,
) -> Result<Checked, NoMemory>
    requires some { 1 ≤ shards }
    requires limit { shards ≤ 256 }
    ensures checked { IfOk result
        (IsCheckedAs (all_given shards streams.now journal.now outputs.now)) }
{
    let files = Files::new(streams, journal, outputs, shards);
    let mut tracks = at_start(alloc, files.count())?;
    if let Some(cause) = first_of_calls(alloc, &files, tracks.as_mut_slice())? {
        return Ok(Checked::No(cause));
    }
    if let Some(cause) = first_output(&files, &tracks) {
        return Ok(Checked::No(cause));
    }
    match first_unheld(alloc, &files, &tracks)? {
        None => Ok(Checked::Yes(Answered::of_tracks(&files, tracks))),
        Some(conn) => Ok(Checked::No(Cause::WrongHolds { conn })),
    }
}

// Makes `count` connections at the start of their first sessions.
fn at_start(alloc: Global, count: u32) -> Result<Vec<Track>, NoMemory>
    ensures none { IfOk result (λ tracks. (g : Given) → length g.streams ≡ count
        → AreTracked g 0 tracks.items) }
{
    let Ok(mut tracks) = Vec::with_capacity(alloc, count as usize) else {
        return Err(NoMemory);
    };
    for _ in 0..count {
        tracks.push_reserved(Track::new(alloc));
    }
    Ok(tracks)
}

// Returns the first cause among the entries and the calls without an entry, if there is one. If
// there is none, each connection is at its end.
fn first_of_calls(
    alloc: Global,
    files: &Files,
    tracks: &mut [Track],
) -> Result<Option<Cause>, NoMemory>
    requires start { AreTracked files.now 0 tracks.old }
    ensures found { IfOk result (FoundMissing files.now tracks.new) }
{
    if let Some(cause) = first_wrong(alloc, files, tracks)? {
        return Ok(Some(cause));
    }
    first_missing(files, tracks)
}
