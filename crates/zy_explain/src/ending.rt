//! Checking what was made of an order at its end.
ghost use Rattle.std.specs.Prelude.{◌≡◌, ◌+◌, true, length, IfSome, option_copied};
ghost use Rattle.zy_verdict.specs.Numbers.{ended_among};
ghost use Rattle.zy_explain.specs.Ending.{EndsRight, AddsSession, AreLineNumbers, AreNumbers, HaveTheirSessions};
ghost use Rattle.zy_explain.specs.Following.{sessions_on, track_at};

use crate::numbers::Numbers;
use crate::over::is_whole;
use crate::state::{State, output_of};
use crate::track::Track;
use zy_capture::Outputs;
use zy_confirm::{ended_by, marks_fit};
use zy_sessions::{Session, Sessions};

/// Checks whether each output is that of a session.
pub(crate) fn have_sessions(sessions: &Sessions, outputs: &Outputs) -> bool
    ensures have { result ≡ true → HaveTheirSessions sessions.now outputs.now.sessions }
{
    if outputs.count() as usize > sessions.lines.len() {
        return false;
    }
    for conn in 0..outputs.count() {
        if sessions_on(sessions, conn as usize) < outputs.sessions(conn) as usize {
            return false;
        }
    }
    true
}

/// Returns the number of sessions of a connection.
pub(crate) fn sessions_on(sessions: &Sessions, conn: usize) -> usize
    ensures value { result ≡ sessions_on sessions.now conn }
{
    match sessions.lines.get(conn) {
        Some(line) => line.sessions.len(),
        None => 0,
    }
}

impl Track {
    // Checks whether no call of the next command was made, the output is cut to its end or goes on with
    // what answers no command, and the marks of the session fit.
    fn is_at_end(&self, session: &Session, output: &[u8]) -> bool
        ensures end { result ≡ true → EndsRight session.now output.now self.now }
    {
        self.saids.is_empty()
            && is_whole(&session.commands, output, &self.answered, self.at)
            && self.answered.len() <= session.sent.len()
            && marks_fit(&session.sent, &session.marks, &self.answered)
    }
}

impl State {
    /// Returns the numbers of the recording, if all sessions end right.
    pub(crate) fn numbers(&self, sessions: &Sessions, outputs: &Outputs) -> Option<Numbers>
        ensures value { IfSome result
            (AreNumbers sessions.now outputs.now.sessions self.now.rows.items (length sessions.now.lines.items)) }
    {
        let mut all = Numbers {
            commands: 0,
            ended: 0,
        };
        for conn in 0..sessions.lines.len() {
            let line = self.line_numbers(sessions, outputs, conn)?;
            let more = both(all, line)?;
            all = more;
        }
        Some(all)
    }

    // Returns the numbers of a connection, if all its sessions end right.
    fn line_numbers(&self, sessions: &Sessions, outputs: &Outputs, conn: usize) -> Option<Numbers>
        ensures value { IfSome result (AreLineNumbers sessions.now outputs.now.sessions self.now.rows.items conn
            (sessions_on sessions.now conn)) }
    {
        let mut all = Numbers {
            commands: 0,
            ended: 0,
        };
        for number in 0..sessions_on(sessions, conn) {
            let more = self.with_session(sessions, outputs, conn, number, all)?;
            all = more;
        }
        Some(all)
    }

    // Adds the numbers of a session, if it ends right.
    fn with_session(
        &self,
        sessions: &Sessions,
        outputs: &Outputs,
        conn: usize,
        number: usize,
        before: Numbers,
    ) -> Option<Numbers>
        ensures value { IfSome result
            (AddsSession sessions.now outputs.now.sessions self.now.rows.items conn number before) }
    {
        if 4_294_967_295 < conn {
            return None;
        }
        let name = conn as u32;
        let session = sessions.session(name, number as u64)?;
        let track = self.track(conn, number)?;
        let output = output_of(outputs, name, number as u64);
        if !track.is_at_end(session, output) {
            return None;
        }
        both(before, own_numbers(session, track))
    }

    // Returns the track of a session of a connection.
    fn track(&self, conn: usize, number: usize) -> Option<&Track>
        ensures value { option_copied result ≡ track_at self.now.rows.items conn number }
    {
        let row = self.rows.get(conn)?;
        row.tracks.get(number)
    }
}

// Returns the numbers of a session.
fn own_numbers(session: &Session, track: &Track) -> Numbers
    ensures commands { result.commands ≡ length session.now.commands.items }
    ensures ended { result.ended ≡ ended_among (length session.now.marks.items) track.now.answered.items }
{
    Numbers {
        commands: session.commands.len() as u64,
        ended: ended_by(session.marks.len(), &track.answered) as u64,
    }
}

// Adds numbers, if they are small enough.
fn both(one: Numbers, other: Numbers) -> Option<Numbers>
    ensures value { IfSome result (λ n. (n.commands ≡ one.commands + other.commands)
        × (n.ended ≡ one.ended + other.ended)) }
{
    let commands = one.commands.checked_add(other.commands)?;
    let ended = one.ended.checked_add(other.ended)?;
    Some(Numbers { commands, ended })
}
