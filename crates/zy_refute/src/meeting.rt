//! Checks that a need is never met, in any order of the calls.
ghost use Rattle.std.specs.Prelude.{◌<◌, length, IfOk, IfSome, IsTrue};
ghost use Rattle.zy_refute.specs.Courses.{IsNeverMet};
ghost use Rattle.zy_refute.specs.Unmet.{AreNeverMet};

use crate::need::Need;
use crate::observed::Observed;
use crate::rests::unknown_rest;
use crate::sources::has_no_source;
use crate::store::Store;
use mc_allows::Fact;
use std::alloc::Global;
use zy_base::{Items, NoMemory};

// So many rests of joined values are looked at for one need.
const REST_LIMIT: u32 = 64;

/// Checks that a fact is never met right before a call, in any order of the calls. A value that was
/// joined may be refuted by its rest.
pub fn is_never_met(
    alloc: Global,
    store: Store,
    calls: &[Observed],
    fact: &Fact,
    reader: usize,
) -> Result<bool, NoMemory>
    requires within { reader < length calls.now }
    ensures never { IfOk result (λ none. IsTrue none → IsNeverMet store calls.now fact.now reader) }
{
    let mut known = Items::new(alloc);
    let met = is_refuted(alloc, store, calls, &mut known, fact, reader);
    drop(known);
    met
}

// Checks that a fact is never met, and learns of rests that are never met as they are asked for.
fn is_refuted(
    alloc: Global,
    store: Store,
    calls: &[Observed],
    known: &mut Items<Need>,
    fact: &Fact,
    reader: usize,
) -> Result<bool, NoMemory>
    requires within { reader < length calls.now }
    requires known { AreNeverMet store calls.now known.old }
    ensures never { IfOk result (λ none. IsTrue none → IsNeverMet store calls.now fact.now reader) }
{
    for _ in 0..REST_LIMIT {
        if has_no_source(store, calls, known.items(), fact, reader)? {
            return Ok(true);
        }
        if !learn(alloc, store, calls, known, fact, reader)? {
            return Ok(false);
        }
    }
    Ok(false)
}

// Adds the first rest that a source of the fact was joined to, if it is never met; otherwise the
// answer is no.
fn learn(
    alloc: Global,
    store: Store,
    calls: &[Observed],
    known: &mut Items<Need>,
    fact: &Fact,
    reader: usize,
) -> Result<bool, NoMemory>
    requires known { AreNeverMet store calls.now known.old }
    ensures known { AreNeverMet store calls.now known.new }
{
    match unknown_rest(alloc, calls, known.items(), fact, reader)? {
        Some(need) => learn_need(store, calls, known, need),
        None => Ok(false),
    }
}

// Adds a need if it is never met.
fn learn_need(
    store: Store,
    calls: &[Observed],
    known: &mut Items<Need>,
    need: Need,
) -> Result<bool, NoMemory>
    requires within { need.reader < length calls.now }
    requires known { AreNeverMet store calls.now known.old }
    ensures known { AreNeverMet store calls.now known.new }
{
    match has_no_source(store, calls, known.items(), &need.fact, need.reader) {
        Ok(true) => add_need(store, calls, known, need),
        Ok(false) => {
            drop(need);
            Ok(false)
        }
        Err(refused) => {
            drop(need);
            Err(refused)
        }
    }
}

// Adds a need that is never met.
#[tactic(auto, using(crate::proofs::RestLemmas::one_more))]
fn add_need(
    store: Store,
    calls: &[Observed],
    known: &mut Items<Need>,
    need: Need,
) -> Result<bool, NoMemory>
    requires never { IsNeverMet store calls.now need.fact need.reader }
    requires known { AreNeverMet store calls.now known.old }
    ensures known { AreNeverMet store calls.now known.new }
{
    match known.push(need) {
        Ok(()) => Ok(true),
        Err((need, refused)) => {
            drop(need);
            Err(refused)
        }
    }
}
