//! What is found of a recording.
ghost use Rattle.std.specs.Prelude.{◌≡◌, ℕ, Bool, false, List, [], IfOk};
ghost use Rattle.zy_capture.specs.declared.record.Record.{Record};
ghost use Rattle.zy_explain.specs.Judged.{judged_after};
ghost use Rattle.zy_items.specs.Standing.{standing_of};
ghost use Rattle.zy_outputs.specs.Observing.{IsRefutedByOutput, IsObserving};
ghost use Rattle.zy_sessions.specs.Sessions.{SessionsHold};
ghost use Rattle.zy_verdict.specs.Explained.{IsExplained};
ghost use Rattle.zy_verdict.specs.Recorded.{Recorded};
ghost use Rattle.zygos_judge.specs.Words.{IsShardCount, is_window};
ghost use Rattle.zygos_judge.specs.Finding.{HasFinding};
ghost use Rattle.zygos_judge.specs.Input.{IsJudged, MayBePlain};

use crate::finding::{Finding, Open, Reason};
use crate::judged::Judged;
use crate::naming::{command_number, first_other, name_of};
use crate::ordering::judge_calls;
use crate::words::Task;
use std::alloc::Global;
use zy_base::NoMemory;
use zy_capture::Outputs;
use zy_items::Standing;
use zy_outputs::{Observing, observe};
use zy_sessions::Sessions;

/// Judges a recording whose server had this at first, unless it has a command that is not followed.
pub(crate) fn judge(
    alloc: Global,
    task: Task,
    from: &Standing,
    sessions: &Sessions,
    outputs: &Outputs,
) -> Result<Judged, NoMemory>
    requires shards { IsShardCount task.rules.shards }
    requires cold { is_window task ≡ false → from.now.lasting.keys ≡ [] }
    ensures judged { IfOk result (λ judged. (count : ℕ) (records : List Record)
        → SessionsHold sessions.now count records
        → IsJudged (is_window task) judged
        (judged_after from.now.lasting.keys task.rules count records outputs.now.sessions) (standing_of from.now)) }
{
    let rules = task.rules;
    let observing = observe(alloc, rules.shards, rules.forget, sessions, outputs)?;
    if let Some(name) = first_other(sessions, &observing) {
        drop(observing);
        let conn = name.conn;
        let command = command_number(sessions, name).unwrap_or(u64::MAX);
        return Ok(Judged::open(Open::Other { conn, command }));
    }
    judge_observed(alloc, task, from, sessions, outputs, observing)
}

// Judges what the outputs show.
fn judge_observed(
    alloc: Global,
    task: Task,
    from: &Standing,
    sessions: &Sessions,
    outputs: &Outputs,
    observing: Observing,
) -> Result<Judged, NoMemory>
    requires cold { is_window task ≡ false → from.now.lasting.keys ≡ [] }
    ensures judged { IfOk result (λ judged. (count : ℕ) (records : List Record)
        → SessionsHold sessions.now count records
        → IsObserving (judged_after from.now.lasting.keys task.rules count records outputs.now.sessions) observing
        → IsJudged (is_window task) judged
        (judged_after from.now.lasting.keys task.rules count records outputs.now.sessions) (standing_of from.now)) }
{
    match observing {
        Observing::Calls(calls) => {
            let judged = judge_calls(alloc, task, from, sessions, outputs, &calls);
            drop(calls);
            judged
        }
        Observing::Kind {
            conn,
            session,
            index,
        } => Ok(Judged::Plain(kind_found(sessions, conn, session, index))),
        Observing::Surplus { conn, session } => Ok(Judged::no(Reason::Surplus { conn, session })),
        Observing::EarlyEnd { record } => Ok(Judged::no(Reason::EarlyEnd { record })),
        Observing::Other { conn, .. } => Ok(Judged::open(Open::Other { conn, command: 0 })),
    }
}

// Says that the output of its session refutes a command.
fn kind_found(sessions: &Sessions, conn: u32, session: u64, index: u64) -> Finding
    ensures found { (window : Bool) (count : ℕ) (r : Recorded) → SessionsHold sessions.now count r.records
        → (IsExplained r → Prim.⊥) × IsRefutedByOutput r conn session index
        → MayBePlain window result × HasFinding r result }
{
    match command_number(sessions, name_of(conn, session, index)) {
        Some(command) => Finding::Refuted(Reason::Kind { conn, command }),
        None => Finding::Unknown(Open::Search {
            conn,
            command: u64::MAX,
        }),
    }
}
