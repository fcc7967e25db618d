//! Records that bytes begin with.
ghost use Rattle.std.specs.Prelude.{IfSome};
ghost use Rattle.zy_journal_reader.specs.Found.{HasEntry, HasHold};

mod calls;
mod fields;
mod heads;
mod replies;

use crate::past::Past;
use calls::call_fields;
use fields::{after, four};
use heads::head_fields;
use mc_calls::{Entry, Hold};
use replies::reply;
use std::alloc::Global;
use zy_base::{CONNECTION_LIMIT, CORE_LIMIT, HOLD_LIMIT, NoMemory};

// Returns an entry that may come next, and the bytes after it; nothing also if an allocation fails.
pub(crate) fn entry(alloc: Global, past: Past, bytes: &[u8]) -> Option<(Entry, &[u8])>
    ensures value { IfSome result (λ found. HasEntry past bytes.now found.0 found.1.now) }
{
    let (head, call) = head_fields(past, bytes)?;
    let (fields, answer) = call_fields(call)?;
    let (reply, rest) = reply(alloc, answer)?;
    match fields.contents(alloc) {
        Ok((key, value)) => {
            let call = fields.kind.call(key, fields.flags, fields.number, value);
            Some((head.entry(call, reply), rest))
        }
        Err(NoMemory) => {
            drop(reply);
            None
        }
    }
}

// Returns a hold that may come next, and the bytes after it.
pub(crate) fn hold(past: Past, bytes: &[u8]) -> Option<(Hold, &[u8])>
    ensures value { IfSome result (λ found. HasHold past bytes.now found.0 found.1.now) }
{
    let numbers = after(b'H', bytes)?;
    let (conn, after_conn) = four(numbers)?;
    let (core, after_core) = four(after_conn)?;
    let (count, rest) = four(after_core)?;
    if past.conn <= conn
        && conn < CONNECTION_LIMIT
        && core < CORE_LIMIT
        && 1 <= count
        && count <= HOLD_LIMIT
    {
        Some((Hold { core, conn, count }, rest))
    } else {
        None
    }
}
