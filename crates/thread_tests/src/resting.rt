//! Cores that rest until they are rung.
ghost use Rattle.std.specs.Prelude.{◌≡◌, ◌<◌, length};

use crate::judging::no_memory;
use std::sync::Wait;
use std::thread;
use std::thread::Threads;
use zy_park::{BellPass, Bells};

// Rings this core, and then rests.
fn ring_and_rest<R: Wait>(rt: &R, bells: &Bells, mut pass: BellPass, core: u32)
    requires bells { pass.bells ≡ bells.now }
    requires core { core < length bells.now }
{
    bells.ring(&mut pass, core);
    bells.rest(rt, &mut pass);
    drop(pass);
}

// Lets each of two threads ring the core of the other, and then rest.
fn ring_one_another<R: Threads + Wait + Sync>(rt: &R, bells: &Bells, one: BellPass, two: BellPass)
    requires one { one.bells ≡ bells.now }
    requires two { two.bells ≡ bells.now }
    requires cores { 1 < length bells.now }
{
    thread::join(
        rt,
        move || -> ()
            requires { (one.bells ≡ bells.now) × (1 < length bells.now) }
        { ring_and_rest(rt, bells, one, 1) },
        move || -> ()
            requires { (two.bells ≡ bells.now) × (1 < length bells.now) }
        { ring_and_rest(rt, bells, two, 0) },
    );
}

#[test]
fn a_core_that_was_rung_rests_and_returns(rt: HostRuntime) {
    let Ok((bells, mut root)) = Bells::new(rt.alloc(), 2) else {
        no_memory(&rt)
    };
    let Ok(pass) = bells.seat(&mut root, 1) else {
        no_memory(&rt)
    };
    ring_and_rest(&rt, &bells, pass, 1);
    drop(root);
    drop(bells);
}

#[test]
fn a_core_that_the_root_rang_rests_and_returns(rt: HostRuntime) {
    let Ok((bells, mut root)) = Bells::new(rt.alloc(), 1) else {
        no_memory(&rt)
    };
    let Ok(mut pass) = bells.seat(&mut root, 0) else {
        no_memory(&rt)
    };
    bells.ring_from(&mut root, 0);
    bells.rest(&rt, &mut pass);
    drop(pass);
    drop(root);
    drop(bells);
}

#[test]
fn two_threads_ring_one_another(rt: HostRuntime) {
    let Ok((bells, mut root)) = Bells::new(rt.alloc(), 2) else {
        no_memory(&rt)
    };
    let Ok(one) = bells.seat(&mut root, 0) else {
        no_memory(&rt)
    };
    let Ok(two) = bells.seat(&mut root, 1) else {
        no_memory(&rt)
    };
    ring_one_another(&rt, &bells, one, two);
    drop(root);
    drop(bells);
}
