//! The commands of one hold.
ghost use Rattle.std.specs.Prelude.{◌≡◌, ◌+◌, ◌≤◌, IfOk};
ghost use Rattle.zy_conn.specs.Hold.{HeldTo};
ghost use Rattle.zy_conn.specs.Step.{StepsOn};

use crate::hold_end::HoldEnd;
use crate::work::Work;
use mc_store::StoreTable;
use zy_base::{Gate, HOLD_LIMIT, NoMemory};

/// Executes commands in order, at most 64, and returns how many were finished, and why it ended.
pub(crate) fn carry_out<G: Gate>(
    work: &mut Work,
    store: &StoreTable,
    gate: &G,
    core: u32,
) -> (u32, Result<HoldEnd, NoMemory>)
    requires table { work.old.table ≡ store.now.id }
    ensures goes { StepsOn work.old work.new }
    ensures count { work.new.finished ≡ work.old.finished + result.0 }
    ensures limit { result.0 ≤ 64 }
    ensures end { IfOk result.1 (HeldTo work.old work.new) }
{
    let mut count = 0;
    while count < HOLD_LIMIT {
        match work.run(store, gate, core) {
            Ok(None) => count += 1,
            Ok(Some(end)) => return (count, Ok(end)),
            Err(e) => return (count, Err(e)),
        }
    }
    if work.looks() {
        (count, Ok(HoldEnd::Limit))
    } else {
        (count, Ok(HoldEnd::Drained))
    }
}
