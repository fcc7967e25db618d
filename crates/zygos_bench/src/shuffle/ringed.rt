//! The shuffle queue.
ghost use Rattle.std.specs.Prelude.{◌≡◌, ◌≤◌, ◌^◌, IfOk};
ghost use Rattle.zy_table.specs.Name.{no_name};
ghost use Rattle.zy_shuffle.specs.Pass.{HasAll};

use std::alloc::Global;
use std::marker::Brand;
use std::sync::Wait;
use std::sync::atomic::{AtomicBool, Ordering};
use std::thread;
use std::thread::Threads;
use zy_base::NoMemory;
use zy_shuffle::{Claim, CorePass, HomePass, Marked, Ring};

const PLACES: u32 = 64;

// A block that is the number of its place.
#[derive(Drop)]
struct Block {
    number: u32,
}

impl Marked for Block {
    ghost use Rattle.std.specs.Prelude.{ℕ};
    ghost use Rattle.zy_table.specs.Name.{no_name};

    ghost Mark = { ℕ };

    ghost mark = { λ b. b.number };

    ghost label = { λ b. no_name };
}

// Publishes a place and claims it as the home, `rounds` times.
pub(crate) fn alone(alloc: Global, rounds: u64) -> Result<(), NoMemory>
    requires few { rounds ≤ 2 ^ 40 }
{
    let (ring, mut home) = Ring::<Block>::new::<Brand>(alloc, PLACES)?;
    publish_and_claim(&ring, &mut home, rounds);
    drop(home);
    drop(ring);
    Ok(())
}

// Publishes and claims on this new ring.
fn publish_and_claim(ring: &Ring<Block>, home: &mut HomePass<Block>, rounds: u64)
    requires within { home.old.table ≡ ring.now.id }
    requires all { HasAll 64 home.old.hand }
    requires label { (home.old.label ≡ no_name) × (home.old.count ≡ 0) }
    requires few { rounds ≤ 2 ^ 40 }
{
    let mut place = 0;
    let mut block = Block { number: 0 };
    for _ in 0..rounds {
        ring.publish(home, place, block);
        let Claim::Took { place: p, block: b } = ring.claim_home(home) else {
            return;
        };
        place = p;
        block = b;
    }
}

// Publishes each place that comes back, `rounds` times, while `thieves` thieves claim.
pub(crate) fn robbed<R: Threads + Wait + Sync>(
    rt: &R,
    alloc: Global,
    thieves: u64,
    rounds: u64,
) -> Result<(), NoMemory>
    requires few { rounds ≤ 2 ^ 40 }
{
    let (ring, mut home) = Ring::<Block>::new::<Brand>(alloc, PLACES)?;
    publish_all(&ring, &mut home);
    let done = rob_ring(rt, &ring, home, thieves, rounds);
    drop(ring);
    done
}

// Publishes and lets thieves claim on this ring.
fn rob_ring<R: Threads + Wait + Sync>(
    rt: &R,
    ring: &Ring<Block>,
    mut home: HomePass<Block>,
    thieves: u64,
    rounds: u64,
) -> Result<(), NoMemory>
    requires within { home.table ≡ ring.now.id }
    requires few { (home.count ≤ 64) × (rounds ≤ 2 ^ 40) }
{
    let one = new_pass(ring, &mut home)?;
    let two = new_pass(ring, &mut home)?;
    let three = new_pass(ring, &mut home)?;
    let stop = AtomicBool::new(false);
    let (shared, ended) = (ring, &stop);
    thread::join(
        rt,
        move ||
            requires { (home.table ≡ shared.now.id) × (home.count ≤ 64) × (rounds ≤ 2 ^ 40) }
        { tend(rt, shared, home, rounds, ended) },
        move ||
            requires { (one.table ≡ shared.now.id) × (two.table ≡ shared.now.id) × (three.table ≡ shared.now.id) }
        { rob_all(rt, shared, thieves, one, two, three, ended) },
    );
    Ok(())
}

// Makes a pass for a thief.
fn new_pass(ring: &Ring<Block>, home: &mut HomePass<Block>) -> Result<CorePass<Block>, NoMemory>
    requires within { home.old.table ≡ ring.now.id }
    ensures value { IfOk result (λ pass. pass.table ≡ ring.now.id) }
    ensures kept { (home.new.table ≡ home.old.table) × (home.new.count ≡ home.old.count) }
{
    ring.split(home)
}

// Publishes all places of the ring.
fn publish_all(ring: &Ring<Block>, home: &mut HomePass<Block>)
    requires within { home.old.table ≡ ring.now.id }
    requires all { HasAll 64 home.old.hand }
    requires label { (home.old.label ≡ no_name) × (home.old.count ≡ 0) }
    ensures kept { home.new.table ≡ home.old.table }
    ensures count { home.new.count ≤ 64 }
{
    for number in 0..PLACES {
        ring.publish(home, number, Block { number });
    }
}

// Does the work of the home.
fn tend<R: Wait>(
    rt: &R,
    ring: &Ring<Block>,
    mut home: HomePass<Block>,
    rounds: u64,
    stop: &AtomicBool,
)
    requires within { home.table ≡ ring.now.id }
    requires few { (home.count ≤ 64) × (rounds ≤ 2 ^ 40) }
{
    let mut done = 0u64;
    for _ in rt.forever() {
        if done >= rounds {
            break;
        }
        match ring.collect(&mut home) {
            Some((place, block)) => {
                ring.publish(&mut home, place, block);
                done += 1;
            }
            None => thread::yield_now(),
        }
    }
    stop.store(true, Ordering::SeqCst);
}

// Lets `thieves` thieves steal, at most three.
fn rob_all<R: Threads + Wait + Sync>(
    rt: &R,
    ring: &Ring<Block>,
    thieves: u64,
    one: CorePass<Block>,
    two: CorePass<Block>,
    three: CorePass<Block>,
    stop: &AtomicBool,
)
    requires within { (one.table ≡ ring.now.id) × (two.table ≡ ring.now.id) × (three.table ≡ ring.now.id) }
{
    match thieves {
        1 => rob(rt, ring, one, stop),
        2 => rob_both(rt, ring, one, two, stop),
        _ => {
            thread::join(
                rt,
                move ||
                    requires { one.table ≡ ring.now.id }
                { rob(rt, ring, one, stop) },
                move ||
                    requires { (two.table ≡ ring.now.id) × (three.table ≡ ring.now.id) }
                { rob_both(rt, ring, two, three, stop) },
            );
        }
    }
}

// Lets two thieves steal.
fn rob_both<R: Threads + Wait + Sync>(
    rt: &R,
    ring: &Ring<Block>,
    one: CorePass<Block>,
    two: CorePass<Block>,
    stop: &AtomicBool,
)
    requires within { (one.table ≡ ring.now.id) × (two.table ≡ ring.now.id) }
{
    thread::join(
        rt,
        move ||
            requires { one.table ≡ ring.now.id }
        { rob(rt, ring, one, stop) },
        move ||
            requires { two.table ≡ ring.now.id }
        { rob(rt, ring, two, stop) },
    );
}

// Claims and gives back as a thief, until the home has ended and nothing is left.
fn rob<R: Wait>(rt: &R, ring: &Ring<Block>, mut pass: CorePass<Block>, stop: &AtomicBool)
    requires within { pass.table ≡ ring.now.id }
{
    for _ in rt.forever() {
        match ring.claim(&mut pass) {
            Claim::Took { place, block } => ring.give_back(&mut pass, place, block),
            Claim::Empty { at: _ } => {
                if stop.load(Ordering::SeqCst) {
                    break;
                }
                thread::yield_now();
            }
            Claim::Raced { saw: _, found: _ } => {}
        }
    }
}
