//! What is found of an input.
ghost use Rattle.std.specs.Prelude.{◌≡◌, ◌≤◌, true, false, IfOk};
ghost use Rattle.zy_items.specs.Standing.{nothing_standing, standing_of};
ghost use Rattle.zy_read.specs.Seen.{side};
ghost use Rattle.zygos_judge.specs.Words.{IsShardCount};
ghost use Rattle.zygos_judge.specs.Input.{FindsIn};

use crate::judged::Judged;
use crate::judging::judge;
use crate::words::Task;
use std::alloc::Global;
use std::collections::BTreeSet;
use zy_base::Source;
use zy_input::{Noted, NotedRecording, NotedWindow, Stop, read_recording, read_window};
use zy_items::Standing;
use zy_sessions::Sessions;

/// Reads the parts of an input, and judges them.
pub(crate) fn find<S: Source>(alloc: Global, task: Task, source: &mut S) -> Result<Judged, Stop>
    requires shards { IsShardCount task.rules.shards }
    ensures reads { S.faults source.old ≤ S.faults source.new }
    ensures ends { FindsIn task (side S.rest S.faults source.old source.new) result }
{
    if task.from {
        find_window(alloc, task, source)
    } else {
        find_recording(alloc, task, source)
    }
}

// Reads a capture and a replies file, and judges them, from a server that had nothing at first.
fn find_recording<S: Source>(alloc: Global, task: Task, source: &mut S) -> Result<Judged, Stop>
    requires shards { IsShardCount task.rules.shards }
    requires first { task.from ≡ false }
    ensures reads { S.faults source.old ≤ S.faults source.new }
    ensures ends { FindsIn task (side S.rest S.faults source.old source.new) result }
{
    let recording = read_recording::<Sessions, S>(alloc, source)?;
    let NotedRecording {
        capture: Noted { streams, notes },
        outputs,
    } = recording;
    // The notes have all that is judged.
    drop(streams);
    let from = nothing(alloc);
    let found = judge(alloc, task, &from, &notes, &outputs);
    drop(from);
    drop(notes);
    drop(outputs);
    Ok(found?)
}

// Reads a capture, an items file and a replies file, and judges them.
fn find_window<S: Source>(alloc: Global, task: Task, source: &mut S) -> Result<Judged, Stop>
    requires shards { IsShardCount task.rules.shards }
    requires first { task.from ≡ true }
    ensures reads { S.faults source.old ≤ S.faults source.new }
    ensures ends { FindsIn task (side S.rest S.faults source.old source.new) result }
{
    let window = read_window::<Sessions, S>(alloc, source)?;
    let NotedWindow {
        capture: Noted { streams, notes },
        outputs,
        standing,
    } = window;
    drop(streams);
    let found = judge(alloc, task, &standing, &notes, &outputs);
    drop(standing);
    drop(notes);
    drop(outputs);
    Ok(found?)
}

// Returns what a server has that has just begun.
fn nothing(alloc: Global) -> Standing
    ensures nothing { standing_of result ≡ nothing_standing }
{
    Standing {
        items: Vec::new(alloc),
        lasting: BTreeSet::new(alloc),
        bound: 0,
    }
}
