//! Two threads that wait for one another at the control words.
ghost use Rattle.std.specs.Prelude.{◌≡◌};
ghost use Rattle.zy_control.specs.View.{IsUncounted};

use crate::judging::no_memory;
use std::sync::Wait;
use std::thread;
use std::thread::Threads;
use zy_control::{Control, ControlPass};

// Counts itself, and waits until all have.
fn count_and_wait<R: Wait>(rt: &R, control: &Control, pass: &mut ControlPass)
    requires table { pass.old.table ≡ control.now.id }
    requires first { IsUncounted pass.old.role }
    ensures table { pass.new.table ≡ control.now.id }
{
    control.count(pass);
    for _ in rt.forever() {
        if control.is_done(pass) {
            break;
        }
        thread::yield_now();
    }
}

// Counts itself, waits until all have, and then asks all to stop.
fn count_and_stop<R: Wait>(rt: &R, control: &Control, mut pass: ControlPass)
    requires table { pass.table ≡ control.now.id }
    requires first { IsUncounted pass.role }
{
    count_and_wait(rt, control, &mut pass);
    control.stop(&mut pass);
    drop(pass);
}

// Counts itself, waits until all have, and then waits until all are to stop.
fn count_until_stopped<R: Wait>(rt: &R, control: &Control, mut pass: ControlPass)
    requires table { pass.table ≡ control.now.id }
    requires first { IsUncounted pass.role }
{
    count_and_wait(rt, control, &mut pass);
    for _ in rt.forever() {
        if control.is_stopped(&mut pass) {
            break;
        }
        thread::yield_now();
    }
    drop(pass);
}

// Lets two threads count themselves, and the first one ask the second to stop.
fn wait_on_two<R: Threads + Wait + Sync>(
    rt: &R,
    control: &Control,
    one: ControlPass,
    two: ControlPass,
)
    requires one { (one.table ≡ control.now.id) × IsUncounted one.role }
    requires two { (two.table ≡ control.now.id) × IsUncounted two.role }
{
    thread::join(
        rt,
        move || -> ()
            requires { (one.table ≡ control.now.id) × IsUncounted one.role }
        { count_and_stop(rt, control, one) },
        move || -> ()
            requires { (two.table ≡ control.now.id) × IsUncounted two.role }
        { count_until_stopped(rt, control, two) },
    );
}

#[test]
fn two_threads_wait_for_one_another(rt: HostRuntime) {
    let Ok((control, mut root)) = Control::new(rt.alloc(), 2) else {
        no_memory(&rt)
    };
    let Ok(one) = control.seat(&mut root) else {
        unreachable!()
    };
    let Ok(two) = control.seat(&mut root) else {
        unreachable!()
    };
    wait_on_two(&rt, &control, one, two);
    drop(root);
    drop(control);
}
