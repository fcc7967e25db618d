//! Commands by their numbers in their connections, over all sessions.
ghost use Rattle.std.specs.Prelude.{◌≡◌, ℕ, length, IfSome};
ghost use Rattle.zy_sessions.specs.Sessions.{SessionsHold};
ghost use Rattle.zy_verdict.specs.Entries.{name_at};
ghost use Rattle.zy_verdict.specs.Recorded.{Recorded, session_commands};
ghost use Rattle.zygos_judge.specs.Finding.{number_of_command};

use mc_allows::CallName;
use zy_base::CONNECTION_LIMIT;
use zy_outputs::Observing;
use zy_sessions::{Line, Sessions};

/// Returns the number of a call's command in its connection, over all sessions, if the notes have all
/// sessions before its own, and it is below 2^64.
pub(crate) fn command_number(sessions: &Sessions, name: CallName) -> Option<u64>
    ensures value { IfSome result (λ number. (count : ℕ) (r : Recorded)
        → SessionsHold sessions.now count r.records → number_of_command r name ≡ number) }
{
    let mut before = 0u64;
    for session in 0..name.session {
        let own = match length_of(sessions, name.conn, session) {
            Some(own) => own,
            None => return None,
        };
        match before.checked_add(own) {
            Some(more) => before = more,
            None => return None,
        }
    }
    before.checked_add(name.index)
}

// Returns how many commands a session has, if it is among the notes.
fn length_of(sessions: &Sessions, conn: u32, session: u64) -> Option<u64>
    ensures value { IfSome result (λ number. (count : ℕ) (r : Recorded)
        → SessionsHold sessions.now count r.records → length (session_commands r conn session) ≡ number) }
{
    match sessions.session(conn, session) {
        Some(own) => Some(own.commands.len() as u64),
        None => None,
    }
}

/// Returns the name of the first call of a command.
pub(crate) fn name_of(conn: u32, session: u64, index: u64) -> CallName
    ensures value { result ≡ name_at conn session index 0 }
{
    CallName {
        index,
        session,
        conn,
        part: 0,
    }
}

/// Returns the first command that is not followed: of the least connection, and there the earliest.
pub(crate) fn first_other(sessions: &Sessions, observing: &Observing) -> Option<CallName> {
    let noted = noted_other(sessions);
    match observing {
        Observing::Other {
            conn,
            session,
            index,
        } => Some(earlier(name_of(*conn, *session, *index), noted)),
        _ => noted,
    }
}

// Returns the first command that the capture shows not to be followed.
fn noted_other(sessions: &Sessions) -> Option<CallName> {
    for conn in 0..CONNECTION_LIMIT {
        if let Some(line) = sessions.lines.get(conn as usize)
            && let Some(name) = other_in(line, conn)
        {
            return Some(name);
        }
    }
    None
}

// Returns the first command of a connection that the capture shows not to be followed.
fn other_in(line: &Line, conn: u32) -> Option<CallName> {
    for session in 0..line.sessions.len() {
        if let Some(index) = line.sessions[session].other {
            return Some(name_of(conn, session as u64, index as u64));
        }
    }
    None
}

// Returns the earlier one of two commands.
fn earlier(one: CallName, other: Option<CallName>) -> CallName {
    match other {
        Some(other) if is_earlier(other, one) => other,
        _ => one,
    }
}

fn is_earlier(one: CallName, other: CallName) -> bool {
    if one.conn != other.conn {
        return one.conn < other.conn;
    }
    if one.session != other.session {
        return one.session < other.session;
    }
    one.index < other.index
}
