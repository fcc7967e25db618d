//! The calls of a command.
ghost use Rattle.std.specs.Prelude.{◌≡◌, ◌≤◌, [], ◌∷◌, ◌++◌, IfOk, OnOk};
ghost use Rattle.mc_parse.specs.Calls.{calls_of};

use crate::command::Command;
use crate::one_call::call_at;
use crate::shard_call::{Calls, ShardCall};
use std::alloc::Global;
use zy_base::NoMemory;

/// Returns the calls of a command on `shards` shards, in their order.
pub fn calls(alloc: Global, command: &Command, shards: u32) -> Result<Calls, NoMemory>
    requires some { 1 ≤ shards }
    requires limit { shards ≤ 256 }
    ensures value { IfOk result (λ calls. calls ≡ calls_of shards command.now) }
{
    let mut calls = Calls::new(alloc);
    loop {
        match call_at(command, calls.items().len(), shards) {
            Ok(Some(call)) => {
                if let Err(e) = push(&mut calls, call) {
                    drop(calls);
                    return Err(e);
                }
            }
            Ok(None) => return Ok(calls),
            Err(e) => {
                drop(calls);
                return Err(e);
            }
        }
    }
}

// Appends a call.
fn push(calls: &mut Calls, call: ShardCall) -> Result<(), NoMemory>
    ensures ok { OnOk result (calls.new ≡ calls.old ++ call ∷ []) }
{
    match calls.push(call) {
        Ok(()) => Ok(()),
        Err((call, e)) => {
            drop(call);
            Err(e)
        }
    }
}
