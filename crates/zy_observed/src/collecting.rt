//! The calls at a key.
ghost use Rattle.std.specs.Prelude.{◌≡◌, ◌≤◌, ◌==◌, ◌&&◌, filter, IfOk};
ghost use Rattle.std.specs.List.Sorted.{IsPermutation};
ghost use Rattle.mc_allows.specs.Steps as Steps;
ghost use Rattle.mc_calls.specs.Key as Keys;
ghost use Rattle.zy_observed.specs.AtKey.{is_call_at_key, AreCallsAt};

use crate::copying::copy_of;
use mc_calls::{Call, shard_of};
use std::alloc::Global;
use std::cmp::Ordering;
use zy_base::NoMemory;
use zy_refute::Observed;

/// Returns copies of the calls at a key, in the order in which they were sent.
pub fn calls_at(
    alloc: Global,
    shards: u32,
    calls: &[Observed],
    key: &[u8],
) -> Result<Vec<Observed>, NoMemory>
    requires some { 1 ≤ shards }
    ensures value { IfOk result (λ own. AreCallsAt shards key.now calls.now own.items) }
{
    let own = collected(alloc, shards, calls, key)?;
    in_order(alloc, own)
}

// Returns copies of the calls at a key, in the order of the list.
fn collected(
    alloc: Global,
    shards: u32,
    calls: &[Observed],
    key: &[u8],
) -> Result<Vec<Observed>, NoMemory>
    requires some { 1 ≤ shards }
    ensures value { IfOk result
        (λ own. own.items ≡ filter (is_call_at_key shards key.now) calls.now) }
{
    let shard = shard_of(key, shards);
    let mut own = Vec::new(alloc);
    for call in calls {
        if is_at_key(shard, key, call) {
            own.push(copy_of(call)?)?;
        }
    }
    Ok(own)
}

// Checks whether a call is on the key, or is a flush of its shard.
fn is_at_key(shard: u32, key: &[u8], call: &Observed) -> bool
    ensures value { result ≡ (call.now.shard == shard && Steps.is_about key.now call.now.call) }
{
    call.shard == shard && is_about(key, &call.call)
}

// Checks whether a call is on the key, or is a flush.
fn is_about(key: &[u8], call: &Call) -> bool
    ensures value { result ≡ Steps.is_about key.now call.now }
{
    match call {
        Call::Get { key: own } | Call::Delete { key: own } => is_same(key, own.bytes()),
        Call::Set { key: own, .. } | Call::Add { key: own, .. } => is_same(key, own.bytes()),
        Call::Replace { key: own, .. } | Call::Cas { key: own, .. } => is_same(key, own.bytes()),
        Call::Append { key: own, .. } | Call::Prepend { key: own, .. } => {
            is_same(key, own.bytes())
        }
        Call::Incr { key: own, .. } | Call::Decr { key: own, .. } => is_same(key, own.bytes()),
        Call::Flush => true,
        Call::Tally => false,
    }
}

// Checks whether two keys are the same.
fn is_same(key: &[u8], other: &[u8]) -> bool
    ensures value { result ≡ Steps.is_same key.now other.now }
{
    match key.cmp(other) {
        Ordering::Equal => true,
        _ => false,
    }
}

// Returns the calls in the order in which they were sent.
fn in_order(alloc: Global, calls: Vec<Observed>) -> Result<Vec<Observed>, NoMemory>
    ensures order { IfOk result (λ own. IsPermutation calls.items own.items) }
{
    let mut calls = calls;
    match calls.as_mut_slice().sort_by_key(alloc, |call| call.sent) {
        Ok(()) => Ok(calls),
        Err(_) => {
            drop(calls);
            Err(NoMemory)
        }
    }
}
