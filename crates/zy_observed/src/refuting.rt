//! Refutes that a key has a course.
ghost use Rattle.std.specs.Prelude.{◌≤◌, IfOk, IfSome, Some};
ghost use Rattle.zy_refute.specs.Shared.{IsRefutationOfApart};
ghost use Rattle.zy_observed.specs.AtKey.{AreCallsAt, HasNoCourse, IsNamedAt};

use crate::collecting::calls_at;
use mc_allows::CallName;
use std::alloc::Global;
use zy_base::NoMemory;
use zy_refute::{Observed, Store, find_shared, find_unmet};

/// The rule by which a key is refuted.
#[derive(Clone, Copy, PartialEq, Eq)]
pub enum Rule {
    /// A sure call needs what no call can have made.
    Unmet,
    /// Some sure calls need one thing and take it away, and fewer calls can have made it.
    Shared,
}

/// The rule by which a key is refuted, and the name of a call that it is about.
#[derive(Clone, Copy)]
pub struct Refuted {
    pub rule: Rule,
    pub name: CallName,
}

/// Refutes that a key has a course, if a rule does so. The calls are those of a recording of a server
/// with this number of shards, with what it shows of them; the store says what the server may do to
/// the item of the key. May answer `NoMemory`.
pub fn refute_key(
    alloc: Global,
    shards: u32,
    store: Store,
    calls: &[Observed],
    key: &[u8],
) -> Result<Option<Refuted>, NoMemory>
    ensures none { IfOk result (λ found. IfSome found
        (λ refuted. HasNoCourse shards store calls.now key.now)) }
    ensures named { IfOk result (λ found. IfSome found
        (λ refuted. IsNamedAt shards key.now calls.now refuted.name)) }
{
    if shards == 0 {
        return Ok(None);
    }
    let own = calls_at(alloc, shards, calls, key)?;
    let found = refute_calls(alloc, shards, store, calls, key, own.as_slice());
    drop(own);
    found
}

// Refutes that a key with these calls has a course, if a rule does so.
fn refute_calls(
    alloc: Global,
    shards: u32,
    store: Store,
    calls: &[Observed],
    key: &[u8],
    own: &[Observed],
) -> Result<Option<Refuted>, NoMemory>
    requires own { AreCallsAt shards key.now calls.now own.now }
    ensures none { IfOk result (λ found. IfSome found
        (λ refuted. HasNoCourse shards store calls.now key.now)) }
    ensures named { IfOk result (λ found. IfSome found
        (λ refuted. IsNamedAt shards key.now calls.now refuted.name)) }
{
    match find_unmet(alloc, store, own)? {
        Some(at) => Ok(named(shards, store, calls, key, own, Rule::Unmet, at)),
        None => refute_shared(alloc, shards, store, calls, key, own),
    }
}

// Refutes that a key with these calls has a course, if the rule `shared` does so.
fn refute_shared(
    alloc: Global,
    shards: u32,
    store: Store,
    calls: &[Observed],
    key: &[u8],
    own: &[Observed],
) -> Result<Option<Refuted>, NoMemory>
    requires own { AreCallsAt shards key.now calls.now own.now }
    ensures none { IfOk result (λ found. IfSome found
        (λ refuted. HasNoCourse shards store calls.now key.now)) }
    ensures named { IfOk result (λ found. IfSome found
        (λ refuted. IsNamedAt shards key.now calls.now refuted.name)) }
{
    match find_shared(alloc, store, own)? {
        Some(at) => Ok(named(shards, store, calls, key, own, Rule::Shared, at)),
        None => Ok(None),
    }
}

// Returns the rule and the name of the call at a place, by which the key is refuted.
fn named(
    shards: u32,
    store: Store,
    calls: &[Observed],
    key: &[u8],
    own: &[Observed],
    rule: Rule,
    at: usize,
) -> Option<Refuted>
    requires own { AreCallsAt shards key.now calls.now own.now }
    requires refuted { IsRefutationOfApart store own.now (Some at) }
    ensures none { IfSome result (λ refuted. HasNoCourse shards store calls.now key.now) }
    ensures named { IfSome result (λ refuted. IsNamedAt shards key.now calls.now refuted.name) }
{
    match own.get(at) {
        Some(call) => Some(Refuted {
            rule,
            name: call.name,
        }),
        None => None,
    }
}
