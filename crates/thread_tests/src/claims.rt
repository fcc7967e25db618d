//! Two threads that claim the places of one ring, and places that are given back.
ghost use Rattle.std.specs.Prelude.{◌≡◌, []};

use crate::judging::judge;
use crate::places::{Block, new_ring, publish_below};
use std::sync::Wait;
use std::thread;
use std::thread::Threads;
use zy_shuffle::{Claim, CorePass, HomePass, Ring};

// How often each place was claimed.
type Seen = [u32; 128];

// Claims until the queue is empty. Each place is noted if its block is its own, and given back.
fn claim_all<R: Wait>(rt: &R, ring: &Ring<Block>, mut pass: CorePass<Block>) -> Seen
    requires within { pass.table ≡ ring.now.id }
    requires empty { pass.hand ≡ [] }
{
    let mut seen = [0u32; 128];
    for _ in rt.forever() {
        if !claim_once(ring, &mut pass, &mut seen) {
            break;
        }
    }
    drop(pass);
    seen
}

// Claims once, and returns whether there may be more places.
fn claim_once(ring: &Ring<Block>, pass: &mut CorePass<Block>, seen: &mut Seen) -> bool
    requires within { pass.old.table ≡ ring.now.id }
    requires empty { pass.old.hand ≡ [] }
    ensures within { pass.new.table ≡ ring.now.id }
    ensures empty { pass.new.hand ≡ [] }
{
    match ring.claim(pass) {
        Claim::Took { place, block } => {
            note(seen, place, &block);
            ring.give_back(pass, place, block);
            true
        }
        Claim::Empty { at: _ } => false,
        Claim::Raced { saw: _, found: _ } => true,
    }
}

// Notes the place, if its block is its own.
fn note(seen: &mut Seen, place: u32, block: &Block) {
    if block.number != place {
        return;
    }
    if let Some(count) = seen.get_mut(place as usize) {
        *count = count.wrapping_add(1);
    }
}

// Claims on one thread.
fn claim_on_one<R: Wait>(rt: &R, ring: &Ring<Block>, home: &mut HomePass<Block>) -> Seen
    requires within { home.old.table ≡ ring.now.id }
    ensures kept { home.new.table ≡ home.old.table }
{
    let Ok(pass) = ring.split(home) else {
        unreachable!()
    };
    claim_all(rt, ring, pass)
}

// Claims on two threads.
fn claim_on_two<R: Threads + Wait + Sync>(
    rt: &R,
    ring: &Ring<Block>,
    home: &mut HomePass<Block>,
) -> (Seen, Seen)
    requires within { home.old.table ≡ ring.now.id }
    ensures kept { home.new.table ≡ home.old.table }
{
    let Ok(one) = ring.split(home) else {
        unreachable!()
    };
    let Ok(two) = ring.split(home) else {
        unreachable!()
    };
    thread::join(
        rt,
        move || -> Seen
            requires { (one.table ≡ ring.now.id) × (one.hand ≡ []) }
        { claim_all(rt, ring, one) },
        move || -> Seen
            requires { (two.table ≡ ring.now.id) × (two.hand ≡ []) }
        { claim_all(rt, ring, two) },
    )
}

// Collects until no doorbell is set, and counts the blocks that are not the next ones of their ring.
fn count_wrong(ring: &Ring<Block>, home: &mut HomePass<Block>, places: u32) -> u32
    requires within { home.old.table ≡ ring.now.id }
    ensures kept { home.new.table ≡ home.old.table }
{
    let mut wrong = 0u32;
    for next in 0..places {
        match ring.collect(home) {
            Some((place, block)) if place == next && block.number == next => {}
            _ => wrong = wrong.saturating_add(1),
        }
    }
    if ring.collect(home).is_some() {
        wrong = wrong.saturating_add(1);
    }
    wrong
}

// Returns how often each place was claimed by one or the other.
fn both(one: &Seen, two: &Seen) -> Seen {
    let mut sum = [0u32; 128];
    for place in 0..128usize {
        sum[place] = one[place].wrapping_add(two[place]);
    }
    sum
}

// Checks whether the places below this one were claimed once each, and no others.
fn are_below(seen: &Seen, places: usize) -> bool {
    for place in 0..128usize {
        if seen[place] != (place < places) as u32 {
            return false;
        }
    }
    true
}

#[test]
fn two_threads_claim_each_place_once(rt: HostRuntime) {
    let (ring, mut home) = new_ring(&rt, rt.alloc(), 100);
    publish_below(&ring, &mut home, 100);
    let (one, two) = claim_on_two(&rt, &ring, &mut home);
    let wrong = count_wrong(&ring, &mut home, 100);
    drop(home);
    drop(ring);
    let all = both(&one, &two);
    judge(&rt, are_below(&all, 100), "a place is not claimed once");
    judge(&rt, wrong == 0, "a place does not come back once");
}

#[test]
fn what_is_given_back_is_collected_once(rt: HostRuntime) {
    let (ring, mut home) = new_ring(&rt, rt.alloc(), 128);
    publish_below(&ring, &mut home, 70);
    let seen = claim_on_one(&rt, &ring, &mut home);
    let wrong = count_wrong(&ring, &mut home, 70);
    drop(home);
    drop(ring);
    judge(&rt, are_below(&seen, 70), "a place is not claimed once");
    judge(&rt, wrong == 0, "a place does not come back once");
}
