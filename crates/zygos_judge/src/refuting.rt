//! Refuting a key.
ghost use Rattle.std.specs.Prelude.{◌≡◌, ℕ, Bool, List, true, IfOk, IfSome};
ghost use Rattle.zy_capture.specs.declared.record.Record.{Record};
ghost use Rattle.zy_explain.specs.Judged.{judged_after};
ghost use Rattle.zy_observed.specs.AtKey.{IsStoreAt};
ghost use Rattle.zy_sessions.specs.Sessions.{SessionsHold};
ghost use Rattle.zy_verdict.specs.Losses.{MayLoseAt};
ghost use Rattle.zygos_judge.specs.Calls.{IsCulprit, IsFoundOf};
ghost use Rattle.zygos_judge.specs.Input.{MayBePlain};

use crate::finding::{Finding, Open, Reason};
use crate::naming::command_number;
use mc_allows::CallName;
use std::alloc::Global;
use std::collections::BTreeSet;
use zy_base::{Blob, NoMemory};
use zy_explain::Rules;
use zy_observed::{Refuted, Rule, refute_key};
use zy_refute::{Observed, Store};
use zy_sessions::Sessions;
use zy_verdict::an_explained_recording_has_courses;

/// Refutes the key of one of the calls that stood in the way of an order, if these keys had an exptime
/// before the recording began; of several refuted calls the
/// one that had ended first is named.
pub(crate) fn refute(
    alloc: Global,
    rules: Rules,
    lasting: &BTreeSet<Blob>,
    sessions: &Sessions,
    calls: &[Observed],
    amiss: &[usize],
) -> Result<Finding, NoMemory>
    ensures found { IfOk result (IsFoundOf lasting.now.keys rules sessions.now calls.now) }
    ensures plain { IfOk result (λ finding. (window : Bool) → MayBePlain window finding) }
{
    let mut first = None;
    for at in amiss {
        if let Some(refuted) = refute_at(alloc, rules, lasting, sessions, calls, *at)? {
            first = Some(sooner(rules, lasting, sessions, calls, first, refuted));
        }
    }
    match first {
        Some(refuted) => Ok(named(rules, lasting, sessions, calls, refuted)),
        None => Ok(nearest(rules, lasting, sessions, calls, amiss)),
    }
}

// Refutes the key of a call.
fn refute_at(
    alloc: Global,
    rules: Rules,
    lasting: &BTreeSet<Blob>,
    sessions: &Sessions,
    calls: &[Observed],
    at: usize,
) -> Result<Option<Refuted>, NoMemory>
    ensures culprit { IfOk result (λ found. IfSome found (λ refuted.
        IsCulprit lasting.now.keys rules sessions.now calls.now refuted.name)) }
{
    match calls.get(at).and_then(|one| one.call.key()) {
        Some(key) => {
            let store = store_at(rules, lasting, sessions, key);
            refute_key(alloc, rules.shards, store, calls, key.bytes())
        }
        None => Ok(None),
    }
}

// What a server may do to the item of a key.
fn store_at(rules: Rules, lasting: &BTreeSet<Blob>, sessions: &Sessions, key: &Blob) -> Store
    ensures store { (count : ℕ) (records : List Record) (outputs : List (List (List ℕ)))
        → SessionsHold sessions.now count records
        → IsStoreAt (judged_after lasting.now.keys rules count records outputs) key.now result }
{
    Store {
        warm: rules.warm,
        forget: may_lose(rules, lasting, sessions, key),
    }
}

// Checks whether a server may lose the item of a key.
fn may_lose(rules: Rules, lasting: &BTreeSet<Blob>, sessions: &Sessions, key: &Blob) -> bool
    ensures lost { (count : ℕ) (records : List Record) (outputs : List (List (List ℕ)))
        → SessionsHold sessions.now count records
        → MayLoseAt (judged_after lasting.now.keys rules count records outputs) key.now → result ≡ true }
{
    if rules.forget {
        return true;
    }
    if lasting.contains(key) {
        return true;
    }
    sessions.has_exptime(key)
}

// Returns the one of two refuted calls that had ended first.
fn sooner(
    rules: Rules,
    lasting: &BTreeSet<Blob>,
    sessions: &Sessions,
    calls: &[Observed],
    one: Option<Refuted>,
    other: Refuted,
) -> Refuted
    requires one { IfSome one (λ refuted. IsCulprit lasting.now.keys rules sessions.now calls.now refuted.name) }
    requires other { IsCulprit lasting.now.keys rules sessions.now calls.now other.name }
    ensures culprit { IsCulprit lasting.now.keys rules sessions.now calls.now result.name }
{
    match one {
        Some(one) if end_of(calls, one.name) <= end_of(calls, other.name) => one,
        _ => other,
    }
}

// Returns the moment at which a call had ended, or the last of all.
fn end_of(calls: &[Observed], name: CallName) -> u64 {
    for one in calls {
        if one.name == name {
            return one.ended.unwrap_or(u64::MAX);
        }
    }
    u64::MAX
}

// Says that a key is refuted, by a call at it.
fn named(
    rules: Rules,
    lasting: &BTreeSet<Blob>,
    sessions: &Sessions,
    calls: &[Observed],
    refuted: Refuted,
) -> Finding
    requires culprit { IsCulprit lasting.now.keys rules sessions.now calls.now refuted.name }
    ensures found { IsFoundOf lasting.now.keys rules sessions.now calls.now result }
    ensures plain { (window : Bool) → MayBePlain window result }
{
    an_explained_recording_has_courses();
    let conn = refuted.name.conn;
    let part = refuted.name.part as u64;
    match (command_number(sessions, refuted.name), refuted.rule) {
        (Some(command), Rule::Unmet) => Finding::Refuted(Reason::Unmet {
            conn,
            command,
            part,
        }),
        (Some(command), Rule::Shared) => Finding::Refuted(Reason::Shared {
            conn,
            command,
            part,
        }),
        (None, _) => Finding::Unknown(Open::Search {
            conn,
            command: u64::MAX,
        }),
    }
}

// Says that neither is known, near the first call that stood in the way of an order.
fn nearest(
    rules: Rules,
    lasting: &BTreeSet<Blob>,
    sessions: &Sessions,
    calls: &[Observed],
    amiss: &[usize],
) -> Finding
    ensures found { IsFoundOf lasting.now.keys rules sessions.now calls.now result }
    ensures plain { (window : Bool) → MayBePlain window result }
{
    match amiss.first().and_then(|at| calls.get(*at)) {
        Some(one) => Finding::Unknown(Open::Search {
            conn: one.name.conn,
            command: command_number(sessions, one.name).unwrap_or(u64::MAX),
        }),
        None => Finding::Unknown(Open::Search {
            conn: 0,
            command: 0,
        }),
    }
}
