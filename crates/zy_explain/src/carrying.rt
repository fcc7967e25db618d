//! Making a call as an order says.
ghost use Rattle.std.specs.Prelude.{◌≡◌, true, IfOk, IfSome, OnOk};
ghost use Rattle.zy_confirm.specs.Store.{store_shards};
ghost use Rattle.zy_explain.specs.Making.{IsOnShards, MayHaveLost, CarriesOut, FailsLawfully, may_lose_in};

use mc_allows::Said;
use mc_parse::{Command, ShardCall};
use std::alloc::Global;
use std::collections::BTreeSet;
use zy_base::{Blob, NoMemory};
use zy_confirm::{Store, make, may_fail_quietly};
use zy_verdict::Placement;

/// Makes a call as its server chose, after the loss of its key's item if the order says so. If the
/// server has no such choice, there is nothing to say.
pub(crate) fn carry_out(
    alloc: Global,
    forget: bool,
    lasting: &BTreeSet<Blob>,
    store: &mut Store,
    call: &ShardCall,
    placement: &Placement,
) -> Result<Option<Said>, NoMemory>
    requires shard { IsOnShards (store_shards store.old) call.now }
    ensures carried { IfOk result (λ found. IfSome found
        (CarriesOut (may_lose_in forget lasting.now) store.old store.new call.now)) }
{
    let done = lose(forget, lasting, store, call, placement.lost)?;
    if !done {
        return Ok(None);
    }
    make(alloc, store, call, placement.choice, placement.unique)
}

// Loses the item of a call's key, if it is lost and may be. Returns whether it may be, if it is.
fn lose(
    forget: bool,
    lasting: &BTreeSet<Blob>,
    store: &mut Store,
    call: &ShardCall,
    is_lost: bool,
) -> Result<bool, NoMemory>
    requires shard { IsOnShards (store_shards store.old) call.now }
    ensures lost { IfOk result
        (λ done. done ≡ true → MayHaveLost (may_lose_in forget lasting.now) store.old store.new) }
    ensures kept { OnOk result (store_shards store.new ≡ store_shards store.old) }
{
    if !is_lost {
        return Ok(true);
    }
    let Some(key) = call.call.key() else {
        return Ok(false);
    };
    if !forget && !lasting.contains(key) {
        return Ok(false);
    }
    store.lose(call.shard, key)?;
    Ok(true)
}

/// Checks whether a call may have failed, if it did.
pub(crate) fn is_lawful(forget: bool, command: &Command, call: &ShardCall, said: &Said) -> bool
    ensures lawful { result ≡ true → FailsLawfully forget command.now call.now said.now }
{
    match said {
        Said::Failed => !command.is_quiet() || may_fail_quietly(forget, &call.call),
        Said::Replied { .. } => true,
    }
}
