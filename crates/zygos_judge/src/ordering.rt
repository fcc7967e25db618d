//! What is found of the calls that outputs show.
ghost use Rattle.std.specs.Prelude.{◌≡◌, ℕ, false, List, [], IfOk};
ghost use Rattle.zy_capture.specs.declared.record.Record.{Record};
ghost use Rattle.zy_explain.specs.Judged.{judged_after};
ghost use Rattle.zy_items.specs.Standing.{standing_of};
ghost use Rattle.zy_observed.specs.Shown.{AreShown};
ghost use Rattle.zy_sessions.specs.Sessions.{SessionsHold};
ghost use Rattle.zygos_judge.specs.Words.{is_window};
ghost use Rattle.zygos_judge.specs.Input.{IsJudged};

use crate::finding::{Finding, Open};
use crate::judged::Judged;
use crate::refuting::refute;
use crate::words::Task;
use std::alloc::Global;
use zy_base::NoMemory;
use zy_capture::Outputs;
use zy_explain::{confirm, confirm_between, union_of};
use zy_find::{Found, find};
use zy_items::{KeptItem, Standing};
use zy_refute::Observed;
use zy_sessions::Sessions;
use zy_verdict::Order;

// How many steps are taken at a key for each of its calls, at most, while an order is looked for.
const STEPS: usize = 64;

// No order was found that explains the recording.
const OPEN: Open = Open::Search {
    conn: 0,
    command: 0,
};

/// Judges the calls that the outputs show: looks for an order and checks it, and otherwise refutes a key.
pub(crate) fn judge_calls(
    alloc: Global,
    task: Task,
    from: &Standing,
    sessions: &Sessions,
    outputs: &Outputs,
    calls: &[Observed],
) -> Result<Judged, NoMemory>
    requires cold { is_window task ≡ false → from.now.lasting.keys ≡ [] }
    ensures judged { IfOk result (λ judged. (count : ℕ) (records : List Record)
        → SessionsHold sessions.now count records
        → AreShown (judged_after from.now.lasting.keys task.rules count records outputs.now.sessions) calls.now
        → IsJudged (is_window task) judged
        (judged_after from.now.lasting.keys task.rules count records outputs.now.sessions) (standing_of from.now)) }
{
    match look(alloc, task, from, sessions, calls)? {
        Found::Ordered { order, began } => {
            let judged = confirm_order(alloc, task, from, sessions, outputs, &began, &order);
            drop(order);
            drop(began);
            judged
        }
        Found::Nothing { calls: amiss } => {
            let found = refute(alloc, task.rules, &from.lasting, sessions, calls, &amiss);
            drop(amiss);
            Ok(Judged::Plain(found?))
        }
    }
}

// Looks for an order of the calls.
fn look(
    alloc: Global,
    task: Task,
    from: &Standing,
    sessions: &Sessions,
    calls: &[Observed],
) -> Result<Found, NoMemory> {
    let lasting = union_of(alloc, &from.lasting, &sessions.lasting)?;
    let rules = zy_find::Rules {
        warm: task.rules.warm,
        forget: task.rules.forget,
        begun: if task.from || task.to {
            Some(from)
        } else {
            None
        },
    };
    let found = find(alloc, rules, &lasting, calls, STEPS);
    drop(lasting);
    found
}

// Checks an order, from a server that had this at first or, if that is not told, these items.
fn confirm_order(
    alloc: Global,
    task: Task,
    from: &Standing,
    sessions: &Sessions,
    outputs: &Outputs,
    began: &[KeptItem],
    order: &Order,
) -> Result<Judged, NoMemory>
    requires cold { is_window task ≡ false → from.now.lasting.keys ≡ [] }
    ensures judged { IfOk result (λ judged. (count : ℕ) (records : List Record)
        → SessionsHold sessions.now count records
        → IsJudged (is_window task) judged
        (judged_after from.now.lasting.keys task.rules count records outputs.now.sessions) (standing_of from.now)) }
{
    if task.from || task.to {
        return match confirm_between(alloc, task.rules, from, sessions, outputs, order)? {
            Some(led) => Ok(Judged::Window(led)),
            None => Ok(Judged::open(OPEN)),
        };
    }
    match confirm(alloc, task.rules, sessions, outputs, began, order)? {
        Some(numbers) => Ok(Judged::Plain(Finding::Explained {
            commands: numbers.commands,
            ended: numbers.ended,
        })),
        None => Ok(Judged::open(OPEN)),
    }
}
