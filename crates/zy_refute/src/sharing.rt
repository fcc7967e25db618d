//! Checks that calls that need one fact and take it away are more than those that can have made it.
ghost use Rattle.std.specs.Prelude.{◌≡◌, ◌<◌, ◌+◌, length, true, false, All, IfOk, IsTrue};
ghost use Rattle.std.specs.List.{AllPairs};
ghost use Rattle.mc_allows.specs.Makers as Makers;
ghost use Rattle.zy_refute.specs.Courses.{HaveNoOrder};
ghost use Rattle.zy_refute.specs.Unmet.{AreNeverMet, IsLossless, IsNoMakerAt};
ghost use Rattle.zy_refute.specs.Shared.{Differ, HaveOtherNames, TakesAway, IsTaker, IsNoMakerFor};
ghost use Rattle.zy_refute.specs.Shared.{AreSources, IsNoStartAt, one_if};

use crate::need::Need;
use crate::observed::Observed;
use crate::sources::{is_kept, is_no_start, is_passed, last_breaker, leaves_not};
use crate::store::Store;
use mc_allows::{Fact, is_need, need_of};
use std::alloc::Global;
use zy_base::{Items, NoMemory};

/// Checks that different sure calls at these places need the fact and take it away, and that fewer
/// calls, with the start, can have made it. The places are to rise.
pub fn is_shared(
    alloc: Global,
    store: Store,
    calls: &[Observed],
    fact: &Fact,
    readers: &[usize],
) -> Result<bool, NoMemory>
    ensures none { IfOk result
        (λ is. IsTrue is → AllPairs HaveOtherNames calls.now → HaveNoOrder store calls.now) }
{
    if !is_need(fact) || !is_kept(store, fact) {
        return Ok(false);
    }
    if !are_rising(readers) || !are_takers(calls, fact, readers)? {
        return Ok(false);
    }
    let start = may_begin(store, calls, fact, readers)?;
    are_few(alloc, store, calls, fact, readers, start)
}

// Checks that each place is less than the next.
fn are_rising(readers: &[usize]) -> bool
    ensures apart { IsTrue result → AllPairs Differ readers.now }
{
    for at in 1..readers.len() {
        if readers[at] <= readers[at - 1] {
            return false;
        }
    }
    true
}

// Checks that the calls at these places are sure, need the fact, and take it away.
fn are_takers(calls: &[Observed], fact: &Fact, readers: &[usize]) -> Result<bool, NoMemory>
    ensures takers { IfOk result
        (λ are. IsTrue are → All (IsTaker calls.now fact.now) readers.now) }
{
    for reader in readers {
        if !is_taker(calls, fact, *reader)? {
            return Ok(false);
        }
    }
    Ok(true)
}

// Checks that the call at a place is sure, needs the fact, and takes it away.
fn is_taker(calls: &[Observed], fact: &Fact, at: usize) -> Result<bool, NoMemory>
    ensures taker { IfOk result (λ is. IsTrue is → IsTaker calls.now fact.now at) }
{
    match calls.get(at) {
        Some(call) => takes_away(call, fact),
        None => Ok(false),
    }
}

// Checks that a call is sure, needs the fact, and surely leaves what excludes it.
fn takes_away(call: &Observed, fact: &Fact) -> Result<bool, NoMemory>
    ensures takes { IfOk result (λ takes. IsTrue takes → TakesAway fact.now call.now) }
{
    if !call.sure {
        return Ok(false);
    }
    let need = need_of(&call.call, &call.shown)?;
    let same = is_same(&need, fact);
    drop(need);
    if !same {
        return Ok(false);
    }
    leaves_not(call, fact)
}

// Checks whether two facts are the same, of those that a call can take away.
fn is_same(one: &Fact, other: &Fact) -> bool
    ensures same { IsTrue result → one.now ≡ other.now }
{
    match (one, other) {
        (Fact::Absent, Fact::Absent) => true,
        (Fact::Present, Fact::Present) => true,
        (Fact::Number { number: own }, Fact::Number { number }) => *own == *number,
        _ => false,
    }
}

// Checks whether the start may be a source of the fact for one of the readers.
fn may_begin(
    store: Store,
    calls: &[Observed],
    fact: &Fact,
    readers: &[usize],
) -> Result<bool, NoMemory>
    ensures begins { IfOk result
        (λ start. start ≡ false → All (IsNoStartAt store calls.now fact.now) readers.now) }
{
    for reader in readers {
        if !is_begun(store, calls, fact, *reader)? {
            return Ok(true);
        }
    }
    Ok(false)
}

// Checks that the start is no source of the fact for the reader at a place.
fn is_begun(store: Store, calls: &[Observed], fact: &Fact, reader: usize) -> Result<bool, NoMemory>
    ensures begun { IfOk result (λ is. IsTrue is → IsNoStartAt store calls.now fact.now reader) }
{
    match calls.get(reader) {
        Some(read) => {
            let last = last_breaker(calls, fact, read)?;
            Ok(is_no_start(store, calls, fact, read, last))
        }
        None => Ok(false),
    }
}

// Checks that the sources of the fact, with the start if it may be one, are fewer than the readers.
fn are_few(
    alloc: Global,
    store: Store,
    calls: &[Observed],
    fact: &Fact,
    readers: &[usize],
    start: bool,
) -> Result<bool, NoMemory>
    requires need { Makers.is_need fact.now ≡ true }
    requires kept { IsLossless store fact.now }
    requires apart { AllPairs Differ readers.now }
    requires takers { All (IsTaker calls.now fact.now) readers.now }
    requires begins { start ≡ false → All (IsNoStartAt store calls.now fact.now) readers.now }
    ensures none { IfOk result
        (λ is. IsTrue is → AllPairs HaveOtherNames calls.now → HaveNoOrder store calls.now) }
{
    let sources = sources_of(alloc, store, calls, fact, readers)?;
    let few = are_fewer(store, calls, fact, readers, sources.as_slice(), start);
    drop(sources);
    Ok(few)
}

// Checks that these sources, with the start if it may be one, are fewer than the readers.
fn are_fewer(
    store: Store,
    calls: &[Observed],
    fact: &Fact,
    readers: &[usize],
    sources: &[usize],
    start: bool,
) -> bool
    requires need { Makers.is_need fact.now ≡ true }
    requires kept { IsLossless store fact.now }
    requires apart { AllPairs Differ readers.now }
    requires takers { All (IsTaker calls.now fact.now) readers.now }
    requires begins { start ≡ false → All (IsNoStartAt store calls.now fact.now) readers.now }
    requires listed { AreSources store calls.now fact.now readers.now sources.now (length calls.now) }
    ensures none { IsTrue result → AllPairs HaveOtherNames calls.now → HaveNoOrder store calls.now }
{
    is_fewer(sources, start, readers)
}

// Checks whether a list has fewer numbers than another one, with one more if the start counts.
fn is_fewer(sources: &[usize], start: bool, readers: &[usize]) -> bool
    ensures fewer { IsTrue result → length sources.now + one_if start < length readers.now }
{
    if start {
        sources.len() < readers.len() && sources.len() + 1 < readers.len()
    } else {
        sources.len() < readers.len()
    }
}

// Lists the calls that may be sources of the fact for one of the readers.
fn sources_of(
    alloc: Global,
    store: Store,
    calls: &[Observed],
    fact: &Fact,
    readers: &[usize],
) -> Result<Vec<usize>, NoMemory>
    ensures listed { IfOk result
        (λ sources. AreSources store calls.now fact.now readers.now sources.items (length calls.now)) }
{
    let known = Items::new(alloc);
    let sources = listed(alloc, store, calls, known.items(), fact, readers);
    drop(known);
    sources
}

// Lists the calls that may be sources of the fact for one of the readers; these needs are never met.
fn listed(
    alloc: Global,
    store: Store,
    calls: &[Observed],
    known: &[Need],
    fact: &Fact,
    readers: &[usize],
) -> Result<Vec<usize>, NoMemory>
    requires known { AreNeverMet store calls.now known.now }
    ensures listed { IfOk result
        (λ sources. AreSources store calls.now fact.now readers.now sources.items (length calls.now)) }
{
    let mut sources = Vec::new(alloc);
    for at in 0..calls.len() {
        add_source(store, calls, known, fact, readers, &mut sources, at)?;
    }
    Ok(sources)
}

// Adds the call at a place if it may be a source of the fact for one of the readers.
fn add_source(
    store: Store,
    calls: &[Observed],
    known: &[Need],
    fact: &Fact,
    readers: &[usize],
    sources: &mut Vec<usize>,
    at: usize,
) -> Result<(), NoMemory>
    requires at { at < length calls.now }
    requires known { AreNeverMet store calls.now known.now }
    requires listed { AreSources store calls.now fact.now readers.now sources.old.items at }
    ensures listed { IfOk result
        (λ done. AreSources store calls.now fact.now readers.now sources.new.items (at + 1)) }
{
    if is_source_of_none(store, calls, known, fact, readers, at)? {
        return Ok(());
    }
    sources.push(at)?;
    Ok(())
}

// Checks that the call at a place is no source of the fact for any of the readers.
fn is_source_of_none(
    store: Store,
    calls: &[Observed],
    known: &[Need],
    fact: &Fact,
    readers: &[usize],
    at: usize,
) -> Result<bool, NoMemory>
    requires at { at < length calls.now }
    requires known { AreNeverMet store calls.now known.now }
    ensures none { IfOk result
        (λ is. IsTrue is → IsNoMakerFor store calls.now fact.now readers.now at) }
{
    for reader in readers {
        if !is_no_source_at(store, calls, known, fact, at, *reader)? {
            return Ok(false);
        }
    }
    Ok(true)
}

// Checks that the call at a place is no source of the fact for the reader at a place.
fn is_no_source_at(
    store: Store,
    calls: &[Observed],
    known: &[Need],
    fact: &Fact,
    at: usize,
    reader: usize,
) -> Result<bool, NoMemory>
    requires at { at < length calls.now }
    requires known { AreNeverMet store calls.now known.now }
    ensures none { IfOk result (λ is. IsTrue is → IsNoMakerAt store calls.now fact.now at reader) }
{
    match calls.get(reader) {
        Some(read) => is_passed(store, calls, known, fact, at, reader, read, None),
        None => Ok(false),
    }
}
