//! Ending the commands whose calls are all made.
ghost use Rattle.std.specs.Prelude.{◌≡◌, ◌≤◌, true, IfOk};
ghost use Rattle.zy_explain.specs.Following.{KeepsStanding};

use crate::rules::Rules;
use crate::state::{State, output_of};
use std::alloc::Global;
use zy_base::NoMemory;
use zy_capture::Outputs;
use zy_sessions::Sessions;

impl State {
    /// Ends the commands of each session whose calls are all made, up to the first whose calls are not
    /// or whose answer does not fit. Returns whether it could.
    pub(crate) fn settle(
        &mut self,
        alloc: Global,
        rules: Rules,
        sessions: &Sessions,
        outputs: &Outputs,
    ) -> Result<bool, NoMemory>
        requires some { 1 ≤ rules.shards }
        requires limit { rules.shards ≤ 256 }
        ensures stands { IfOk result (λ done. done ≡ true
            → KeepsStanding rules sessions.now outputs.now.sessions self.old self.new) }
    {
        for conn in 0..self.rows.len() {
            if !self.settle_row(alloc, rules, sessions, outputs, conn)? {
                return Ok(false);
            }
        }
        Ok(true)
    }

    // The same of the sessions of a connection.
    fn settle_row(
        &mut self,
        alloc: Global,
        rules: Rules,
        sessions: &Sessions,
        outputs: &Outputs,
        conn: usize,
    ) -> Result<bool, NoMemory>
        requires some { 1 ≤ rules.shards }
        requires limit { rules.shards ≤ 256 }
        ensures stands { IfOk result (λ done. done ≡ true
            → KeepsStanding rules sessions.now outputs.now.sessions self.old self.new) }
    {
        if conn >= self.rows.len() {
            return Ok(false);
        }
        for number in 0..self.rows[conn].tracks.len() {
            if !self.settle_one(alloc, rules, sessions, outputs, conn, number)? {
                return Ok(false);
            }
        }
        Ok(true)
    }

    // The same of one session.
    fn settle_one(
        &mut self,
        alloc: Global,
        rules: Rules,
        sessions: &Sessions,
        outputs: &Outputs,
        conn: usize,
        number: usize,
    ) -> Result<bool, NoMemory>
        requires some { 1 ≤ rules.shards }
        requires limit { rules.shards ≤ 256 }
        ensures stands { IfOk result (λ done. done ≡ true
            → KeepsStanding rules sessions.now outputs.now.sessions self.old self.new) }
    {
        if 4_294_967_295 < conn {
            return Ok(false);
        }
        let name = conn as u32;
        let Some(session) = sessions.session(name, number as u64) else {
            return Ok(false);
        };
        if conn >= self.rows.len() {
            return Ok(false);
        }
        let output = output_of(outputs, name, number as u64);
        let done = self.rows[conn].settle(alloc, rules, session, output, number)?;
        Ok(done)
    }
}
