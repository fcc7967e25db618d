//! Four thieves at one home.
ghost use Rattle.std.specs.Prelude.{◌≡◌, ◌≤◌, [], ◌∷◌, ◌++◌, length, slice_get, Some};
ghost use Rattle.zy_table.specs.Name.{no_name};
ghost use Rattle.zy_shuffle.specs.Pass.{HasAll, Ringed};
ghost use Rattle.zy_steal.specs.Steal.{ArePasses};

use crate::judging::{judge, no_memory};
use crate::places::{Block, new_ring, publish_below};
use std::alloc::Global;
use std::process::Abort;
use std::sync::Wait;
use std::sync::atomic::{AtomicBool, Ordering};
use std::thread;
use std::thread::Threads;
use zy_shuffle::{Claim, HomePass, Ring};
use zy_steal::{Passes, Rings, Stolen, Victims};

const PLACES: u32 = 4;

const ROUNDS: u32 = 10_000;

// A thief's passes, and those of another.
type Pair = (Passes<Block>, Passes<Block>);

// Adds a ring.
fn push_ring<R: Abort>(rt: &R, rings: &mut Rings<Block>, ring: Ring<Block>)
    ensures value { rings.new ≡ rings.old ++ ring ∷ [] }
{
    let Ok(()) = rings.push(ring) else {
        no_memory(rt)
    };
}

// Adds the rings of two cores, the second of which has no place, and returns the home of the first.
fn push_both<R: Abort>(rt: &R, alloc: Global, rings: &mut Rings<Block>) -> HomePass<Block>
    requires none { rings.old ≡ [] }
    ensures count { length rings.new ≡ 2 }
    ensures home { (r : Ringed) → slice_get rings.new 0 ≡ Some r → result.table ≡ r.id }
    ensures all { HasAll 4 result.hand }
    ensures label { (result.label ≡ no_name) × (result.count ≡ 0) }
{
    let (ring, home) = new_ring(rt, alloc, PLACES);
    push_ring(rt, rings, ring);
    let (ring, other) = new_ring(rt, alloc, 0);
    push_ring(rt, rings, ring);
    drop(other);
    home
}

// Returns a pass of the second core on the first one's ring.
fn pass_on<R: Abort>(
    rt: &R,
    alloc: Global,
    rings: &Rings<Block>,
    home: &mut HomePass<Block>,
) -> Passes<Block>
    requires count { length rings.now ≡ 2 }
    requires home { (r : Ringed) → slice_get rings.now 0 ≡ Some r → home.old.table ≡ r.id }
    ensures within { ArePasses rings.now result × (result.core ≡ 1) }
    ensures kept { (home.new.table ≡ home.old.table) × (home.new.hand ≡ home.old.hand) }
    ensures same { (home.new.label ≡ home.old.label) × (home.new.count ≡ home.old.count) }
{
    let Ok(pass) = rings.ring(0).split(home) else {
        unreachable!()
    };
    let mut passes = Passes::new(alloc, 1);
    let Ok(()) = passes.push(pass) else {
        no_memory(rt)
    };
    passes
}

// Makes such passes for two thieves.
fn pair_on<R: Abort>(
    rt: &R,
    alloc: Global,
    rings: &Rings<Block>,
    home: &mut HomePass<Block>,
) -> Pair
    requires count { length rings.now ≡ 2 }
    requires home { (r : Ringed) → slice_get rings.now 0 ≡ Some r → home.old.table ≡ r.id }
    ensures one { ArePasses rings.now result.0 × (result.0.core ≡ 1) }
    ensures two { ArePasses rings.now result.1 × (result.1.core ≡ 1) }
    ensures kept { (home.new.table ≡ home.old.table) × (home.new.hand ≡ home.old.hand) }
    ensures same { (home.new.label ≡ home.old.label) × (home.new.count ≡ home.old.count) }
{
    let one = pass_on(rt, alloc, rings, home);
    let two = pass_on(rt, alloc, rings, home);
    (one, two)
}

// Publishes each place that comes back, for `ROUNDS` rounds, and then asks the thieves to stop.
fn tend<R: Wait>(
    rt: &R,
    ring: &Ring<Block>,
    mut home: HomePass<Block>,
    stop: &AtomicBool,
) -> HomePass<Block>
    requires within { home.table ≡ ring.now.id }
    requires few { home.count ≤ 4 }
    ensures kept { result.table ≡ home.table }
{
    let mut rounds = 0;
    for _ in rt.forever() {
        if rounds >= ROUNDS {
            break;
        }
        match ring.collect(&mut home) {
            Some((place, block)) => {
                ring.publish(&mut home, place, block);
                rounds += 1;
            }
            None => thread::yield_now(),
        }
    }
    stop.store(true, Ordering::SeqCst);
    home
}

// Steals and gives back until there are no more places, and counts the blocks that belong to
// another place.
fn rob<R: Wait>(rt: &R, rings: &Rings<Block>, mut passes: Passes<Block>, stop: &AtomicBool) -> u32
    requires count { length rings.now ≡ 2 }
    requires within { ArePasses rings.now passes × (passes.core ≡ 1) }
{
    let mut victims = Victims::new(1, 2);
    let mut wrong = 0u32;
    for _ in rt.forever() {
        match victims.steal(rings, &mut passes) {
            Stolen::Took {
                victim,
                place,
                block,
            } => {
                if block.number != place {
                    wrong = wrong.saturating_add(1);
                }
                passes.give_back(rings, victim, place, block);
            }
            Stolen::Nothing { looks: _ } => {
                if stop.load(Ordering::SeqCst) {
                    break;
                }
                thread::yield_now();
            }
        }
    }
    drop(passes);
    wrong
}

// Lets two thieves steal.
fn rob_both<R: Threads + Wait + Sync>(
    rt: &R,
    rings: &Rings<Block>,
    pair: Pair,
    stop: &AtomicBool,
) -> u32
    requires count { length rings.now ≡ 2 }
    requires one { ArePasses rings.now pair.0 × (pair.0.core ≡ 1) }
    requires two { ArePasses rings.now pair.1 × (pair.1.core ≡ 1) }
{
    let (one, two) = pair;
    let (a, b) = thread::join(
        rt,
        move || -> u32
            requires { (length rings.now ≡ 2) × ArePasses rings.now one × (one.core ≡ 1) }
        { rob(rt, rings, one, stop) },
        move || -> u32
            requires { (length rings.now ≡ 2) × ArePasses rings.now two × (two.core ≡ 1) }
        { rob(rt, rings, two, stop) },
    );
    a.saturating_add(b)
}

// Lets four thieves steal.
fn rob_all<R: Threads + Wait + Sync>(
    rt: &R,
    rings: &Rings<Block>,
    pairs: (Pair, Pair),
    stop: &AtomicBool,
) -> u32
    requires count { length rings.now ≡ 2 }
    requires one { ArePasses rings.now pairs.0.0 × (pairs.0.0.core ≡ 1) }
    requires two { ArePasses rings.now pairs.0.1 × (pairs.0.1.core ≡ 1) }
    requires three { ArePasses rings.now pairs.1.0 × (pairs.1.0.core ≡ 1) }
    requires four { ArePasses rings.now pairs.1.1 × (pairs.1.1.core ≡ 1) }
{
    let (first, second) = pairs;
    let (a, b) = thread::join(
        rt,
        move || -> u32
            requires { (length rings.now ≡ 2) × ArePasses rings.now first.0 × (first.0.core ≡ 1)
                × ArePasses rings.now first.1 × (first.1.core ≡ 1) }
        { rob_both(rt, rings, first, stop) },
        move || -> u32
            requires { (length rings.now ≡ 2) × ArePasses rings.now second.0 × (second.0.core ≡ 1)
                × ArePasses rings.now second.1 × (second.1.core ≡ 1) }
        { rob_both(rt, rings, second, stop) },
    );
    a.saturating_add(b)
}

// Lets four thieves steal, while the home tends its ring.
fn rob_and_tend<R: Threads + Wait + Sync>(
    rt: &R,
    rings: &Rings<Block>,
    home: HomePass<Block>,
    pairs: (Pair, Pair),
) -> (HomePass<Block>, u32)
    requires count { length rings.now ≡ 2 }
    requires home { (r : Ringed) → slice_get rings.now 0 ≡ Some r → home.table ≡ r.id }
    requires few { home.count ≤ 4 }
    requires one { ArePasses rings.now pairs.0.0 × (pairs.0.0.core ≡ 1) }
    requires two { ArePasses rings.now pairs.0.1 × (pairs.0.1.core ≡ 1) }
    requires three { ArePasses rings.now pairs.1.0 × (pairs.1.0.core ≡ 1) }
    requires four { ArePasses rings.now pairs.1.1 × (pairs.1.1.core ≡ 1) }
    ensures kept { result.0.table ≡ home.table }
{
    let stop = AtomicBool::new(false);
    let ended = &stop;
    thread::join(
        rt,
        move || -> HomePass<Block>
            requires { (length rings.now ≡ 2) × ((r : Ringed) → slice_get rings.now 0 ≡ Some r → home.table ≡ r.id)
                × (home.count ≤ 4) }
            ensures table { result.table ≡ home.table }
        { tend(rt, rings.ring(0), home, ended) },
        move || -> u32
            requires { (length rings.now ≡ 2) × ArePasses rings.now pairs.0.0 × (pairs.0.0.core ≡ 1)
                × ArePasses rings.now pairs.0.1 × (pairs.0.1.core ≡ 1) × ArePasses rings.now pairs.1.0
                × (pairs.1.0.core ≡ 1) × ArePasses rings.now pairs.1.1 × (pairs.1.1.core ≡ 1) }
        { rob_all(rt, rings, pairs, ended) },
    )
}

// Publishes all places, has four thieves rob the home, and counts the blocks that were of another place.
fn rob_home<R: Threads + Wait + Abort + Sync>(
    rt: &R,
    alloc: Global,
    rings: &Rings<Block>,
    mut home: HomePass<Block>,
) -> (HomePass<Block>, u32)
    requires count { length rings.now ≡ 2 }
    requires home { (r : Ringed) → slice_get rings.now 0 ≡ Some r → home.table ≡ r.id }
    requires all { HasAll 4 home.hand }
    requires label { (home.label ≡ no_name) × (home.count ≡ 0) }
    ensures kept { result.0.table ≡ home.table }
{
    let first = pair_on(rt, alloc, rings, &mut home);
    let second = pair_on(rt, alloc, rings, &mut home);
    publish_below(rings.ring(0), &mut home, PLACES);
    rob_and_tend(rt, rings, home, (first, second))
}

// Takes a place out of the ring, wherever it is.
fn take_out(ring: &Ring<Block>, home: &mut HomePass<Block>) -> Option<u32>
    requires within { home.old.table ≡ ring.now.id }
    ensures kept { home.new.table ≡ home.old.table }
{
    match ring.collect(home) {
        Some((place, _)) => Some(place),
        None => match ring.claim_home(home) {
            Claim::Took { place, block: _ } => Some(place),
            Claim::Empty { at: _ } => None,
            Claim::Raced { saw: _, found: _ } => None,
        },
    }
}

// Takes all places out, and returns how often each was in the ring.
fn take_out_all(ring: &Ring<Block>, home: &mut HomePass<Block>) -> [u32; PLACES as usize]
    requires within { home.old.table ≡ ring.now.id }
{
    let mut seen = [0u32; PLACES as usize];
    for _ in 0..100 {
        if let Some(place) = take_out(ring, home) {
            if let Some(count) = seen.get_mut(place as usize) {
                *count = count.wrapping_add(1);
            }
        }
    }
    seen
}

#[test]
fn every_place_comes_back_from_four_thieves(rt: HostRuntime) {
    let alloc = rt.alloc();
    let mut rings = Rings::new(alloc);
    let home = push_both(&rt, alloc, &mut rings);
    let (mut home, wrong) = rob_home(&rt, alloc, &rings, home);
    let seen = take_out_all(rings.ring(0), &mut home);
    drop(home);
    drop(rings);
    judge(&rt, wrong == 0, "a block is of another place");
    judge(
        &rt,
        seen == [1; PLACES as usize],
        "a place is not there once",
    );
}
