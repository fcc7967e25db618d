//! Checking an order of calls against a window of a longer recording.
ghost use Rattle.std.specs.Prelude.{◌≡◌, ◌≤◌, ℕ, List, All, IfOk, IfSome};
ghost use Rattle.std.specs.List.{AllPairs};
ghost use Rattle.zy_capture.specs.declared.record.Record.{Record};
ghost use Rattle.zy_confirm.specs.Store.{store_shards};
ghost use Rattle.zy_explain.specs.Between.{HasUniqueUpTo, StandsAt};
ghost use Rattle.zy_explain.specs.Judged.{judged_after};
ghost use Rattle.zy_items.specs.Standing.{IsKeyBefore, IsStanding, standing_of};
ghost use Rattle.zy_sessions.specs.Sessions.{SessionsHold};
ghost use Rattle.zy_verdict.specs.Between.{IsExplainedBetweenWith};

use crate::beginning::begin_store;
use crate::confirming::{Followed, follow, may_follow};
use crate::lasting::union_of;
use crate::numbers::Numbers;
use crate::rules::Rules;
use crate::state::State;
use std::alloc::Global;
use std::collections::BTreeSet;
use zy_base::{Blob, NoMemory};
use zy_capture::Outputs;
use zy_items::{KeptItem, Standing};
use zy_sessions::Sessions;
use zy_verdict::Order;

/// The numbers of an explained window, and what its server has at its end.
#[derive(Drop)]
pub struct Window {
    pub numbers: Numbers,
    pub to: Standing,
}

/// Checks whether an order of calls, from a server that had this at first, explains the recording of
/// these sessions and outputs, and returns its numbers and what the server has at last if it does.
/// `None` says nothing.
pub fn confirm_between(
    alloc: Global,
    rules: Rules,
    from: &Standing,
    sessions: &Sessions,
    outputs: &Outputs,
    order: &Order,
) -> Result<Option<Window>, NoMemory>
    ensures between { IfOk result (λ found. IfSome found (λ w. (count : ℕ) (records : List Record)
        → SessionsHold sessions.now count records
        → IsExplainedBetweenWith (judged_after from.now.lasting.keys rules count records outputs.now.sessions)
        (standing_of from.now) (standing_of w.to) w.numbers.commands w.numbers.ended)) }
    ensures standing { IfOk result (λ found. IfSome found (λ w. IsStanding (standing_of w.to))) }
{
    if !may_follow(rules, sessions, outputs) {
        return Ok(None);
    }
    let Some(store) = begin_store(alloc, rules, from)? else {
        return Ok(None);
    };
    let lasting = match union_of(alloc, &from.lasting, &sessions.lasting) {
        Ok(lasting) => lasting,
        Err(refused) => {
            drop(store);
            return Err(refused);
        }
    };
    match follow(alloc, rules, &lasting, store, sessions, outputs, order) {
        Ok(Some(Followed { numbers, state })) => {
            let to = standing_at(state, lasting)?;
            Ok(Some(Window { numbers, to }))
        }
        Ok(None) => {
            drop(lasting);
            Ok(None)
        }
        Err(refused) => {
            drop(lasting);
            Err(refused)
        }
    }
}

// Returns what a server has at last, if the items of these keys may be lost.
fn standing_at(state: State, lasting: BTreeSet<Blob>) -> Result<Standing, NoMemory>
    requires some { 1 ≤ store_shards state.store }
    requires limit { store_shards state.store ≤ 256 }
    requires rises { AllPairs IsKeyBefore lasting.keys }
    ensures to { IfOk result (λ to. StandsAt state.store lasting (standing_of to)) }
    ensures standing { IfOk result (λ to. IsStanding (standing_of to)) }
{
    let State { store, rows, .. } = state;
    drop(rows);
    let most = store.most();
    match store.into_items() {
        Ok(items) => {
            let bound = bound_of(&items, most);
            Ok(Standing {
                items,
                lasting,
                bound,
            })
        }
        Err(refused) => {
            drop(lasting);
            Err(refused)
        }
    }
}

// Returns a number that is not less than another one, nor than the unique of any of these items.
fn bound_of(items: &[KeptItem], most: u64) -> u64
    ensures most { most ≤ result }
    ensures within { All (HasUniqueUpTo result) items.now }
{
    let mut bound = most;
    for kept in items {
        if bound < kept.item.unique {
            bound = kept.item.unique;
        }
    }
    bound
}
