//! What is found of an input.
ghost use Rattle.std.specs.Prelude.{◌≤◌, ℕ, List, IfOk};
ghost use Rattle.zy_capture.specs.declared.record.Record.{Record};
ghost use Rattle.zy_command_line.specs.Range.{AreShards};
ghost use Rattle.zy_check.specs.Given.{all_given};
ghost use Rattle.zy_read.specs.Seen.{side};
ghost use Rattle.zygos_linear.specs.Finding.{HasFinding, recording_of};
ghost use Rattle.zygos_linear.specs.Input.{AreOfRecords, FindsIn};

use crate::finding::Finding;
use std::alloc::Global;
use zy_base::{NoMemory, Source};
use zy_check::{Checked, check_answered};
use zy_input::{NotedParts, Stop, read_noted_parts};
use zy_times::{Times, judge};

/// Reads the three parts of an input, and judges them.
pub(crate) fn find<S: Source>(alloc: Global, shards: u32, source: &mut S) -> Result<Finding, Stop>
    requires shards { AreShards shards }
    ensures reads { S.faults source.old ≤ S.faults source.new }
    ensures ends { FindsIn shards (side S.rest S.faults source.old source.new) result }
{
    let parts = read_noted_parts::<Times, S>(alloc, source)?;
    let found = judge_parts(alloc, &parts, shards);
    drop(parts);
    Ok(found?)
}

// Judges the parts of an input.
fn judge_parts(alloc: Global, parts: &NotedParts<Times>, shards: u32) -> Result<Finding, NoMemory>
    requires shards { AreShards shards }
    requires records { (count : ℕ) × (records : List Record)
        × AreOfRecords parts.now.capture.streams parts.now.capture.notes count records }
    ensures found { IfOk result (λ finding. (count : ℕ) (records : List Record)
        → AreOfRecords parts.now.capture.streams parts.now.capture.notes count records
        → HasFinding (all_given shards parts.now.capture.streams parts.now.journal parts.now.outputs)
        (recording_of records parts.now.journal.entries) count finding) }
{
    let streams = &parts.capture.streams;
    match check_answered(alloc, streams, &parts.journal, &parts.outputs, shards)? {
        Checked::No(cause) => Ok(Finding::NoRun(cause)),
        Checked::Yes(answered) => {
            let timing = judge(alloc, &parts.capture.notes, &answered, &parts.journal);
            drop(answered);
            Ok(Finding::Run(timing?))
        }
    }
}
