//! The tracks of a connection's sessions.
ghost use Rattle.std.specs.Prelude.{◌≡◌, ◌≤◌, true, IfOk, IfSome};
ghost use Rattle.zy_confirm.specs.Store.{store_shards};
ghost use Rattle.zy_explain.specs.Following.{IsFreshRow, RowFollows, RowSettles};

use crate::rules::Rules;
use crate::track::Track;
use std::alloc::Global;
use std::collections::BTreeSet;
use zy_base::{Blob, NoMemory};
use zy_confirm::Store;
use zy_sessions::Session;
use zy_verdict::Placement;

/// A track for each session of a connection.
#[derive(Drop)]
pub(crate) struct Row {
    pub(crate) tracks: Vec<Track>,
}

impl Row {
    /// Begins before the first command of each of this number of sessions.
    pub(crate) fn new(alloc: Global, count: usize) -> Result<Row, NoMemory>
        ensures fresh { IfOk result (IsFreshRow count) }
    {
        let Ok(mut tracks) = Vec::with_capacity(alloc, count) else {
            return Err(NoMemory);
        };
        for _ in 0..count {
            tracks.push_reserved(Track::new(alloc));
        }
        Ok(Row { tracks })
    }

    /// Makes the next call of the session that the order has placed, if it can.
    pub(crate) fn follow(
        &mut self,
        alloc: Global,
        rules: Rules,
        lasting: &BTreeSet<Blob>,
        session: &Session,
        output: &[u8],
        store: &mut Store,
        placement: &Placement,
        latest: u32,
    ) -> Result<Option<u32>, NoMemory>
        requires some { 1 ≤ rules.shards }
        requires limit { rules.shards ≤ 256 }
        requires shards { store_shards store.old ≡ rules.shards }
        ensures followed { IfOk result (λ found. IfSome found (RowFollows rules lasting.now session.now output.now
            store.old store.new self.old self.new placement.now.name latest)) }
    {
        let number = placement.name.session as usize;
        if number >= self.tracks.len() {
            return Ok(None);
        }
        match self.tracks[number].follow(
            alloc, rules, lasting, session, output, store, placement, latest,
        )? {
            Some(moment) => Ok(Some(moment)),
            None => Ok(None),
        }
    }

    /// Ends the commands of a session whose calls are all made, up to the first whose calls are not or
    /// whose answer does not fit. Returns whether there is such a session.
    pub(crate) fn settle(
        &mut self,
        alloc: Global,
        rules: Rules,
        session: &Session,
        output: &[u8],
        number: usize,
    ) -> Result<bool, NoMemory>
        requires some { 1 ≤ rules.shards }
        requires limit { rules.shards ≤ 256 }
        ensures settled { IfOk result (λ done. done ≡ true
            → RowSettles rules session.now output.now self.old self.new number) }
    {
        if number >= self.tracks.len() {
            return Ok(false);
        }
        let until = session.commands.len();
        self.tracks[number].settle(alloc, rules, session, output, until)?;
        Ok(true)
    }
}
