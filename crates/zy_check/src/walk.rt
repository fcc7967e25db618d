//! Walking through the entries of a journal.
ghost use Rattle.std.specs.Prelude.{◌≡◌, ◌↔◌, ◌≤◌, ℕ, true, [], length, take, Some, IfOk, OnOk};
ghost use Rattle.std.specs.List.{slice_get};
ghost use Rattle.mc_calls.specs.Shard.{reply_to};
ghost use Rattle.mc_shard.specs.Replay.{state_replayed};
ghost use Rattle.zy_check.specs.Given.{IsNextCall};
ghost use Rattle.zy_check.specs.Walk.{AreBeforeEntry, AreReplayed, AreTracked, FoundAt, FoundWrong, IsNextIn};

use crate::files::Files;
use crate::track::Track;
use crate::verdict::Cause;
use mc_calls::CallReply;
use mc_history::EntryRef;
use mc_shard::Replay;
use std::alloc::Global;
use zy_base::NoMemory;

/// Returns the cause at the first wrong entry, if there is one. If there is none, each connection
/// is after its last entry.
pub fn first_wrong(
    alloc: Global,
    files: &Files,
    tracks: &mut [Track],
) -> Result<Option<Cause>, NoMemory>
    requires start { AreTracked files.now 0 tracks.old }
    ensures found { IfOk result (FoundWrong files.now tracks.new) }
{
    let mut states = empty_shards(alloc, files.shards())?;
    let mut entries = files.entries();
    for at in 0..u64::MAX {
        let Some(entry) = entries.next() else {
            return Ok(None);
        };
        if let Some(cause) = wrong_at(files, at, &entry, tracks, &mut states)? {
            return Ok(Some(cause));
        }
    }
    // There are more entries than 64 bits count.
    Err(NoMemory)
}

// Returns the cause at an entry, if there is one.
fn wrong_at(
    files: &Files,
    at: u64,
    entry: &EntryRef<'_>,
    tracks: &mut [Track],
    states: &mut Vec<Replay>,
) -> Result<Option<Cause>, NoMemory>
    requires is { slice_get files.now.entries at ≡ Some entry.now }
    requires here { AreBeforeEntry files.now at tracks.old states.old.items }
    ensures found { IfOk result (FoundAt files.now at tracks.new states.new.items) }
{
    if !is_next(files, tracks, entry)? {
        return Ok(Some(Cause::NotNext { entry: at }));
    }
    // The shard's reply is kept, which shares its value with the shard's item; a copy of the entry's would not.
    let reply = answer_again(tracks, entry, &mut states[entry.shard() as usize])?;
    if !entry.is_reply(&reply) {
        drop(reply);
        return Ok(Some(Cause::WrongReply { entry: at }));
    }
    tracks[entry.tag().conn as usize].answer(reply)?;
    Ok(None)
}

// Makes the call of an entry again on its shard, and returns the reply. The call is that of the
// connection, whose key and value its stream has: it need not be made of the entry.
fn answer_again(
    tracks: &[Track],
    entry: &EntryRef<'_>,
    state: &mut Replay,
) -> Result<CallReply, NoMemory>
    requires next { IsNextIn tracks.now entry.now }
    ensures reply { IfOk result (λ reply. reply ≡ reply_to state.old.state entry.now.call) }
    ensures ok { OnOk result (state.new ≡ state_replayed state.old entry.now.call) }
{
    let track = &tracks[entry.tag().conn as usize];
    state.answer(track.call())
}

// Checks whether an entry is the next call of its connection. The connection goes on to that call.
fn is_next(files: &Files, tracks: &mut [Track], entry: &EntryRef<'_>) -> Result<bool, NoMemory>
    requires same { length tracks.old ≡ length files.now.streams }
    ensures kept { OnOk result ((at : ℕ) → AreTracked files.now at tracks.old
        → AreTracked files.now at tracks.new) }
    ensures exact { IfOk result (λ next. (at : ℕ) → AreTracked files.now at tracks.old
        → next ≡ true ↔ IsNextCall files.now (take at files.now.entries) entry.now) }
    ensures there { IfOk result (λ next. next ≡ true → IsNextIn tracks.new entry.now) }
{
    let conn = entry.tag().conn;
    if tracks.len() <= conn as usize {
        return Ok(false);
    }
    let track = &mut tracks[conn as usize];
    if !track.go_on(files, conn)? {
        return Ok(false);
    }
    Ok(track.is_due(entry, conn))
}

// Makes `shards` shards on which no call was made.
fn empty_shards(alloc: Global, shards: u32) -> Result<Vec<Replay>, NoMemory>
    requires limit { shards ≤ 256 }
    ensures none { IfOk result (λ states. AreReplayed shards [] states.items) }
{
    let Ok(mut states) = Vec::with_capacity(alloc, shards as usize) else {
        return Err(NoMemory);
    };
    for number in 0..shards {
        states.push_reserved(Replay::new(alloc, number, shards));
    }
    Ok(states)
}
