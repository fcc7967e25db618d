//! One command, from where it is to its end.
ghost use Rattle.std.specs.Prelude.{◌≡◌, ◌+◌, ◌≤◌, OnErr, IfOk, MatchOption};
ghost use Rattle.zy_conn.specs.Work.{idle};
ghost use Rattle.zy_conn.specs.Step.{IsGoing, IsAllMade, StepsOn, StopsBy};

use super::Work;
use super::direct::Begins;
use crate::calling::Made;
use crate::hold_end::HoldEnd;
use mc_store::StoreTable;
use zy_base::{Gate, NoMemory};

impl Work {
    /// Makes the calls that are left to the command in progress, or says why it stopped.
    pub(crate) fn make_calls(&mut self, store: &StoreTable) -> Result<Option<HoldEnd>, NoMemory>
        requires table { self.old.table ≡ store.now.id }
        requires shards { store.now.shards ≡ self.old.table.slots }
        requires going { IsGoing self.old.begun }
        ensures goes { StepsOn self.old self.new }
        ensures finished { self.new.finished ≡ self.old.finished }
        ensures made { IfOk result (λ stop. MatchOption stop (IsAllMade self.new.begun) (StopsBy self.old self.new)) }
    {
        loop {
            match self.call(store)? {
                Made::Call => {}
                Made::Done => return Ok(None),
                Made::Stopped(end) => return Ok(Some(end)),
            }
        }
    }

    /// Goes on until a command is finished, or says why it stopped.
    pub(crate) fn run<G: Gate>(
        &mut self,
        store: &StoreTable,
        gate: &G,
        core: u32,
    ) -> Result<Option<HoldEnd>, NoMemory>
        requires table { self.old.table ≡ store.now.id }
        ensures goes { StepsOn self.old self.new }
        ensures none { IfOk result (λ stop. MatchOption stop ((self.new.finished ≡ self.old.finished + 1)
            × (self.new.begun ≡ idle))
            (λ end. (self.new.finished ≡ self.old.finished) × StopsBy self.old self.new end)) }
        ensures err { OnErr result (self.new.finished ≡ self.old.finished) }
    {
        match self.begin(store, gate, core)? {
            Begins::Finished => return Ok(None),
            Begins::Stopped(stop) => return Ok(Some(stop)),
            Begins::Going => {}
        }
        if let Some(stop) = self.make_calls(store)? {
            return Ok(Some(stop));
        }
        self.finish()?;
        Ok(None)
    }
}
