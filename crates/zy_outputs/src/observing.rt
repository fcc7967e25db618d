//! All calls of a recording, with what its outputs show.
ghost use Rattle.std.specs.Prelude.{◌≡◌, ◌≤◌, ◌⊎◌, ℕ, [], List, Bool, Some, IfOk};
ghost use Rattle.std.specs.List.{slice_index_or};
ghost use Rattle.zy_capture.specs.Streams.{sessions_of};
ghost use Rattle.zy_capture.specs.declared.record.Record.{Record};
ghost use Rattle.zy_sessions.specs.Sessions.{SessionsHold};
ghost use Rattle.zy_outputs.specs.Observing.{recorded_of, IsObserving, IsFoundBy};
ghost use Rattle.zy_outputs.specs.Telling.{IsTold};
ghost use Rattle.zy_outputs.specs.Sessions.{LineIsDone, LinesAreDone, IsOutputFound, IsFirstOf, IsOther};

use crate::finding::Finding;
use crate::rules::Rules;
use crate::session::observe_session;
use mc_allows::CallName;
use std::alloc::Global;
use zy_base::{Items, NoMemory};
use zy_capture::Outputs;
use zy_refute::Observed;
use zy_sessions::{Line, Sessions};

/// What is found of the outputs of a recording.
#[derive(Drop)]
pub enum Observing {
    /// What is left of an output neither begins with an answer of this command, nor begins one.
    Kind { conn: u32, session: u64, index: u64 },
    /// An output goes on after the answers of all commands, or belongs to no session of the capture.
    Surplus { conn: u32, session: u64 },
    /// The mark of this record comes before a command that it may end.
    EarlyEnd { record: u64 },
    /// A server may have answered this command in a way that is not followed here.
    Other { conn: u32, session: u64, index: u64 },
    /// These are the calls of all commands, with what is shown of them.
    Calls(Vec<Observed>),
}

/// Cuts the outputs of a capture's sessions into answers. The server has this number of shards; `forget` says that it
/// may lose any item.
pub fn observe(
    alloc: Global,
    shards: u32,
    forget: bool,
    sessions: &Sessions,
    outputs: &Outputs,
) -> Result<Observing, NoMemory>
    requires some { 1 ≤ shards }
    requires limit { shards ≤ 256 }
    ensures value { IfOk result (λ observing. (count : ℕ) (records : List Record) (warm : Bool)
        (lasting : List (List ℕ)) → SessionsHold sessions.now count records
        → IsObserving (recorded_of count records outputs.now shards warm forget lasting) observing) }
{
    let mut calls = Items::new(alloc);
    match observe_lines(
        alloc,
        Rules { shards, forget },
        &sessions.lines,
        outputs,
        &mut calls,
    ) {
        Ok(found) => Ok(told_by(found, calls)),
        Err(refused) => {
            drop(calls);
            Err(refused)
        }
    }
}

// Says what is found, or gives the calls.
fn told_by(found: Option<Finding>, calls: Items<Observed>) -> Observing
    ensures value { IsTold found calls result }
{
    match found {
        None => Observing::Calls(calls.into_vec()),
        Some(finding) => {
            drop(calls);
            observing_of(finding)
        }
    }
}

// Says what is found.
fn observing_of(finding: Finding) -> Observing
    ensures value { IsFoundBy finding result }
{
    match finding {
        Finding::Kind {
            conn,
            session,
            index,
        } => Observing::Kind {
            conn,
            session,
            index,
        },
        Finding::Surplus { conn, session } => Observing::Surplus { conn, session },
        Finding::EarlyEnd { record } => Observing::EarlyEnd { record },
        Finding::Other {
            conn,
            session,
            index,
        } => Observing::Other {
            conn,
            session,
            index,
        },
    }
}

// Adds the calls of all connections, or says what is found of an output instead.
#[tactic(auto, using(crate::proofs::LineLemmas::lines_start, crate::proofs::LineLemmas::lines_end))]
fn observe_lines(
    alloc: Global,
    rules: Rules,
    lines: &[Line],
    outputs: &Outputs,
    calls: &mut Items<Observed>,
) -> Result<Option<Finding>, NoMemory>
    requires some { 1 ≤ rules.shards }
    requires limit { rules.shards ≤ 256 }
    ensures done { IfOk result (LinesAreDone rules lines.now outputs.now calls.old calls.new) }
{
    if lines.len() > u32::MAX as usize {
        return Err(NoMemory);
    }
    let mut found = None;
    for conn in 0..lines.len() {
        let next = observe_line(alloc, rules, conn as u32, &lines[conn], outputs, calls)?;
        found = first_of(found, next);
    }
    let next = surplus_session(lines.len() as u32, 0, outputs);
    Ok(first_of(found, next))
}

// Adds the calls of a connection, or says what is found of an output instead.
#[tactic(auto, using(crate::proofs::LineLemmas::line_start, crate::proofs::LineLemmas::line_ends))]
fn observe_line(
    alloc: Global,
    rules: Rules,
    conn: u32,
    line: &Line,
    outputs: &Outputs,
    calls: &mut Items<Observed>,
) -> Result<Option<Finding>, NoMemory>
    requires some { 1 ≤ rules.shards }
    requires limit { rules.shards ≤ 256 }
    ensures done { IfOk result (LineIsDone rules conn line.now outputs.now calls.old calls.new) }
{
    let mut found = None;
    for session in 0..line.sessions.len() {
        let name = CallName {
            index: 0,
            session: session as u64,
            conn,
            part: 0,
        };
        let next = observe_session(
            alloc,
            rules,
            name,
            &line.sessions[session],
            output_in(outputs, conn, session),
            calls,
        )?;
        found = first_of(found, next);
    }
    let next = surplus_session(conn, line.sessions.len(), outputs);
    Ok(first_of(found, next))
}

// Returns the output of a session; a session without a record in the replies file has no bytes.
fn output_in(outputs: &Outputs, conn: u32, session: usize) -> &[u8]
    ensures value { result.now ≡ slice_index_or (sessions_of outputs.now.sessions conn) session [] }
{
    if conn < outputs.count() && session < outputs.sessions(conn) as usize {
        outputs.output(conn, session as u32)
    } else {
        &[]
    }
}

// Finds the output of this session, which the capture does not have.
fn surplus_session(conn: u32, session: usize, outputs: &Outputs) -> Option<Finding>
    ensures value { IsOutputFound outputs.now conn session result }
{
    if conn < outputs.count() && session < outputs.sessions(conn) as usize {
        Some(Finding::Surplus {
            conn,
            session: session as u64,
        })
    } else {
        None
    }
}

// Returns the first of two findings, but one that is not followed before one that is refuted.
fn first_of(found: Option<Finding>, next: Option<Finding>) -> Option<Finding>
    ensures value { IsFirstOf found next result }
{
    match found {
        None => next,
        Some(Finding::Other { .. }) => found,
        Some(first) => other_or(first, next),
    }
}

// Returns a finding, or the next one if it is not followed.
fn other_or(first: Finding, next: Option<Finding>) -> Option<Finding>
    ensures value { (result ≡ Some first) ⊎ IsOther result }
{
    match next {
        Some(Finding::Other { .. }) => next,
        _ => Some(first),
    }
}
