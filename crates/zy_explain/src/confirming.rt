//! Checking an order of calls against a recording.
ghost use Rattle.std.specs.Prelude.{◌≡◌, ◌≤◌, ℕ, List, true, IfOk, IfSome};
ghost use Rattle.zy_capture.specs.declared.record.Record.{Record};
ghost use Rattle.zy_sessions.specs.Sessions.{SessionsHold};
ghost use Rattle.zy_verdict.specs.Numbers.{IsExplainedWith};
ghost use Rattle.zy_explain.specs.Judged.{judged};
ghost use Rattle.zy_confirm.specs.Store.{store_shards};
ghost use Rattle.zy_confirm.specs.declared.store.Store.{Store};
ghost use Rattle.zy_explain.specs.Ending.{EndsAs, HaveTheirSessions};
ghost use Rattle.zy_explain.specs.Following.{IsFirstStore, StandsSome};

use crate::beginning::store_with;
use crate::ending::have_sessions;
use crate::numbers::Numbers;
use crate::rules::Rules;
use crate::state::State;
use std::alloc::Global;
use std::collections::BTreeSet;
use zy_base::{Blob, NoMemory};
use zy_capture::Outputs;
use zy_confirm::Store;
use zy_items::KeptItem;
use zy_sessions::Sessions;
use zy_verdict::Order;

/// Checks whether an order of calls, from a server that had these items at first, explains the
/// recording of these sessions and outputs, and returns its numbers if it does. `None` says nothing.
pub fn confirm(
    alloc: Global,
    rules: Rules,
    sessions: &Sessions,
    outputs: &Outputs,
    firsts: &[KeptItem],
    order: &Order,
) -> Result<Option<Numbers>, NoMemory>
    ensures explained { IfOk result (λ found. IfSome found (λ n. (count : ℕ) (records : List Record)
        → SessionsHold sessions.now count records
        → IsExplainedWith (judged rules count records outputs.now.sessions) n.commands n.ended)) }
{
    if !may_follow(rules, sessions, outputs) {
        return Ok(None);
    }
    let Some(store) = store_with(alloc, rules, firsts)? else {
        return Ok(None);
    };
    let lasting = &sessions.lasting;
    match follow(alloc, rules, lasting, store, sessions, outputs, order)? {
        Some(Followed { numbers, state }) => {
            drop(state);
            Ok(Some(numbers))
        }
        None => Ok(None),
    }
}

/// Checks whether there may be such a server, and each output is that of a session.
pub(crate) fn may_follow(rules: Rules, sessions: &Sessions, outputs: &Outputs) -> bool
    ensures some { result ≡ true → 1 ≤ rules.shards }
    ensures limit { result ≡ true → rules.shards ≤ 256 }
    ensures have { result ≡ true → HaveTheirSessions sessions.now outputs.now.sessions }
{
    1 <= rules.shards && rules.shards <= 256 && have_sessions(sessions, outputs)
}

/// An order that was followed to its end.
#[derive(Drop)]
pub(crate) struct Followed {
    pub(crate) numbers: Numbers,
    pub(crate) state: State,
}

/// Follows an order from a store on, where the items of these keys may be lost. `None` if it does not
/// explain the recording.
pub(crate) fn follow(
    alloc: Global,
    rules: Rules,
    lasting: &BTreeSet<Blob>,
    store: Store,
    sessions: &Sessions,
    outputs: &Outputs,
    order: &Order,
) -> Result<Option<Followed>, NoMemory>
    requires some { 1 ≤ rules.shards }
    requires limit { rules.shards ≤ 256 }
    requires first { IsFirstStore rules store }
    ensures ends { IfOk result (λ found. IfSome found (λ f.
        EndsAs rules lasting.now sessions.now outputs.now.sessions store f.state f.numbers)) }
{
    let mut state = State::new(alloc, store, sessions)?;
    match follow_order(&mut state, alloc, rules, lasting, sessions, outputs, order) {
        Ok(Some(numbers)) => Ok(Some(Followed { numbers, state })),
        Ok(None) => {
            drop(state);
            Ok(None)
        }
        Err(refused) => {
            drop(state);
            Err(refused)
        }
    }
}

// Follows an order from the state before its first call.
fn follow_order(
    state: &mut State,
    alloc: Global,
    rules: Rules,
    lasting: &BTreeSet<Blob>,
    sessions: &Sessions,
    outputs: &Outputs,
    order: &Order,
) -> Result<Option<Numbers>, NoMemory>
    requires some { 1 ≤ rules.shards }
    requires limit { rules.shards ≤ 256 }
    requires shards { store_shards state.old.store ≡ rules.shards }
    ensures ends { IfOk result (λ found. IfSome found (λ n. (began : Store)
        → StandsSome rules lasting.now sessions.now outputs.now.sessions began state.old
        → EndsAs rules lasting.now sessions.now outputs.now.sessions began state.new n)) }
{
    for placement in order.items() {
        let made = state.place(alloc, rules, lasting, sessions, outputs, placement)?;
        if !made {
            return Ok(None);
        }
    }
    let done = state.settle(alloc, rules, sessions, outputs)?;
    if !done {
        return Ok(None);
    }
    Ok(state.numbers(sessions, outputs))
}
