//! How far an order was followed.
ghost use Rattle.std.specs.Prelude.{◌≡◌, ◌≤◌, true, length, IfOk};
ghost use Rattle.zy_confirm.specs.Store.{store_shards};
ghost use Rattle.zy_confirm.specs.declared.store.Store.{Store};
ghost use Rattle.zy_explain.specs.Following.{AreFreshRows, StandsAtFirst, StandsSome, output_in};

use crate::ending::sessions_on;
use crate::row::Row;
use crate::rules::Rules;
use std::alloc::Global;
use std::collections::BTreeSet;
use zy_base::{Blob, NoMemory};
use zy_capture::Outputs;
use zy_confirm::Store;
use zy_sessions::Sessions;
use zy_verdict::Placement;

/// The items of the server, the tracks of the sessions of each connection, and the moment of the
/// last call that was made.
#[derive(Drop)]
pub(crate) struct State {
    pub(crate) store: Store,
    pub(crate) rows: Vec<Row>,
    pub(crate) moment: u32,
}

impl State {
    /// Begins before the first call, with a store that has the items that the server had at first.
    pub(crate) fn new(alloc: Global, store: Store, sessions: &Sessions) -> Result<State, NoMemory>
        ensures store { IfOk result (λ state. state.store ≡ store) }
        ensures none { IfOk result (StandsAtFirst sessions.now store) }
    {
        match fresh_rows(alloc, sessions) {
            Ok(rows) => Ok(State {
                store,
                rows,
                moment: 0,
            }),
            Err(refused) => {
                drop(store);
                Err(refused)
            }
        }
    }

    /// Makes the call that the order has placed, if it can. Returns whether it did.
    pub(crate) fn place(
        &mut self,
        alloc: Global,
        rules: Rules,
        lasting: &BTreeSet<Blob>,
        sessions: &Sessions,
        outputs: &Outputs,
        placement: &Placement,
    ) -> Result<bool, NoMemory>
        requires some { 1 ≤ rules.shards }
        requires limit { rules.shards ≤ 256 }
        requires shards { store_shards self.old.store ≡ rules.shards }
        ensures shards { IfOk result (λ made. made ≡ true → store_shards self.new.store ≡ rules.shards) }
        ensures stands { IfOk result (λ made. made ≡ true → (began : Store)
            → StandsSome rules lasting.now sessions.now outputs.now.sessions began self.old
            → StandsSome rules lasting.now sessions.now outputs.now.sessions began self.new) }
    {
        let name = placement.name;
        let conn = name.conn as usize;
        let Some(session) = sessions.session(name.conn, name.session) else {
            return Ok(false);
        };
        if conn >= self.rows.len() {
            return Ok(false);
        }
        let output = output_of(outputs, name.conn, name.session);
        let latest = self.moment;
        match self.rows[conn].follow(
            alloc,
            rules,
            lasting,
            session,
            output,
            &mut self.store,
            placement,
            latest,
        )? {
            Some(moment) => {
                self.moment = moment;
                Ok(true)
            }
            None => Ok(false),
        }
    }
}

// Returns a fresh track for each session.
fn fresh_rows(alloc: Global, sessions: &Sessions) -> Result<Vec<Row>, NoMemory>
    ensures fresh { IfOk result (λ rows. AreFreshRows sessions.now (length sessions.now.lines.items) rows.items) }
{
    let count = sessions.lines.len();
    let Ok(mut rows) = Vec::with_capacity(alloc, count) else {
        return Err(NoMemory);
    };
    for conn in 0..count {
        rows.push_reserved(Row::new(alloc, sessions_on(sessions, conn))?);
    }
    Ok(rows)
}

/// Returns the output of a session; a session without a record has no bytes.
pub(crate) fn output_of(outputs: &Outputs, conn: u32, session: u64) -> &[u8]
    ensures value { result.now ≡ output_in outputs.now.sessions conn session }
{
    if conn < outputs.count() && session < outputs.sessions(conn) as u64 {
        outputs.output(conn, session as u32)
    } else {
        &[]
    }
}
