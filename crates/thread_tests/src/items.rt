//! A receive ring between two threads.
ghost use Rattle.std.specs.Prelude.{◌≡◌};

use crate::judging::{judge, no_memory};
use std::sync::Wait;
use std::thread;
use zy_rx::{Inlet, Outlet, Rx, both_ends, ring};

const ITEMS: u32 = 100_000;

// Offers `items` items, each until it is accepted.
fn offer_all<R: Wait>(rt: &R, mut inlet: Inlet, items: u32) -> Inlet
    ensures kept { result.ring ≡ inlet.ring }
{
    let mut next = 0;
    for _ in rt.forever() {
        if next >= items {
            break;
        }
        let back = inlet.offer(Rx::Close { conn: next });
        let is_taken = back.is_none();
        drop(back);
        if is_taken {
            next += 1;
        } else {
            thread::yield_now();
        }
    }
    inlet
}

// Takes `items` items, and counts those that are not the next ones.
fn take_all<R: Wait>(rt: &R, mut outlet: Outlet, items: u32) -> (Outlet, u32)
    ensures kept { result.0.ring ≡ outlet.ring }
{
    let mut wrong = 0u32;
    let mut next = 0;
    for _ in rt.forever() {
        if next >= items {
            break;
        }
        let taken = outlet.take();
        let number = number_of(&taken);
        drop(taken);
        match number {
            Some(number) => {
                wrong = wrong.saturating_add((number != next) as u32);
                next += 1;
            }
            None => thread::yield_now(),
        }
    }
    (outlet, wrong)
}

// Returns the number of the item, or one that no item has.
fn number_of(item: &Option<Rx>) -> Option<u32> {
    match item {
        Some(Rx::Close { conn }) => Some(*conn),
        Some(_) => Some(ITEMS),
        None => None,
    }
}

#[test]
fn items_cross_threads_in_order(rt: HostRuntime) {
    let Ok((inlet, outlet)) = ring(rt.alloc(), 256) else {
        no_memory(&rt)
    };
    let runtime = &rt;
    let (mut inlet, taken) = thread::join(
        &rt,
        move || -> Inlet
            ensures ring { result.ring ≡ inlet.ring }
        { offer_all(runtime, inlet, ITEMS) },
        move || -> (Outlet, u32)
            ensures ring { result.0.ring ≡ outlet.ring }
        { take_all(runtime, outlet, ITEMS) },
    );
    let (mut outlet, wrong) = taken;
    both_ends(&mut inlet, &mut outlet);
    let more = outlet.take();
    let is_all = more.is_none();
    drop(more);
    drop(inlet);
    drop(outlet);
    judge(&rt, wrong == 0 && is_all, "an item is not the next one");
}
