//! Where a group of cores is.
ghost use Rattle.std.specs.Prelude.{◌≡◌, ◌≤◌, true, length};
ghost use Rattle.zy_core.specs.Cores.{identities, EachFits, EachSettled};
ghost use Rattle.zy_rounds.specs.Resting.{CanRest};
ghost use Rattle.zy_drive.specs.Seat.{seat_identities};
ghost use Rattle.zy_rounds.specs.Same.{SameCores};

use crate::first_group::FirstGroup;
use std::snapshot::Snapshot;
use std::sync::Wait;
use std::sync::atomic::{AtomicU64, Ordering};
use std::thread::{Promise, PromisedHandle, Scope, Threads};
use zy_base::{Gate, NoMemory};
use zy_core::Core;
use zy_rounds::{Driving, Group, Patience, Rester, call_up, go_on};

// What a thread keeps of its cores, which come back as they went out.
#[derive(Drop)]
pub(crate) struct Keeps {
    before: Snapshot<Group>,
}

impl Promise<Group> for Keeps {
    ghost use Rattle.std.specs.Prelude.{◌≡◌};
    ghost use Rattle.zy_core.specs.Cores.{identities};

    ghost kept_by = { λ p r. identities r.cores ≡ identities p.before.value.cores };
}

// A group of cores is on a thread of its own, or with the caller.
#[derive(Drop)]
pub(crate) enum Seat {
    Away(PromisedHandle<Group, Keeps>),
    Here(Group),
}

// Gives a group its seat. The first group, whose bit is 1, stays with the caller if the caller
// drives it; for each other group a thread is started. A group whose bit is set in `leave` takes no
// turn on its thread.
pub(crate) fn seat_group<'s, E, R: Wait + Sync, G: Gate + Sync>(
    scope: &Scope<'s, E>,
    driving: &Driving<'s, R, G>,
    first: FirstGroup,
    leave: &'s AtomicU64,
    group: Group,
    rester: Option<Rester>,
    bit: u64,
) -> Seat
    requires fits { EachFits driving.now.shared.now (identities group.cores) }
    requires rests { CanRest driving.now.bells.now (identities group.cores) rester }
    ensures same { seat_identities result ≡ identities group.cores }
{
    if bit == 1 && first == FirstGroup::Caller {
        drop(rester);
        return Seat::Here(group);
    }
    start_group(scope, driving, leave, group, rester, bit)
}

// Starts a thread for a group. If it cannot be started, the bit is set so that the group leaves at
// once, and the group is with the caller.
fn start_group<'s, E, R: Wait + Sync, G: Gate + Sync>(
    scope: &Scope<'s, E>,
    driving: &Driving<'s, R, G>,
    leave: &'s AtomicU64,
    group: Group,
    rester: Option<Rester>,
    bit: u64,
) -> Seat
    requires fits { EachFits driving.now.shared.now (identities group.cores) }
    requires rests { CanRest driving.now.bells.now (identities group.cores) rester }
    ensures same { seat_identities result ≡ identities group.cores }
{
    let before = Snapshot::of(&group);
    // The thread has its own struct: a clause of a closure that holds one with a lifetime is lost.
    let &Driving {
        rt,
        shared,
        bells,
        gate,
    } = driving;
    match scope.spawn_with(
        Keeps { before },
        move || -> Group
            requires { EachFits shared.now (identities group.cores) × CanRest bells.now (identities group.cores) rester
                × (length bells.now ≡ length shared.now.rings) × (length bells.now ≤ 64) }
            ensures same { SameCores group.cores result.cores }
        {
            let driving = Driving::new(rt, shared, bells, gate);
            drive_group(&driving, leave, group, rester, bit)
        },
    ) {
        Ok(handle) => Seat::Away(handle),
        Err(refused) => {
            leave.fetch_or(bit, Ordering::SeqCst);
            Seat::Here((refused.value)())
        }
    }
}

// Drives the cores of a group until all cores are done, or all are to stop, or this group is to leave.
fn drive_group<R: Wait, G: Gate>(
    driving: &Driving<'_, R, G>,
    leave: &AtomicU64,
    group: Group,
    rester: Option<Rester>,
    bit: u64,
) -> Group
    requires fits { EachFits driving.now.shared.now (identities group.cores) }
    requires rests { CanRest driving.now.bells.now (identities group.cores) rester }
    ensures same { SameCores group.cores result.cores }
{
    let mut group = group;
    let mut rester = rester;
    let mut patience = Patience::new();
    let (mut watch, mut is_stopped) = driving.shared.control().watch();
    for _ in driving.rt.forever() {
        if is_stopped || leave.load(Ordering::SeqCst) & bit != 0 {
            drop(rester);
            return group;
        }
        match go_on(driving, &mut group, &mut rester) {
            Ok(round) => {
                if group.is_done() {
                    drop(rester);
                    return group;
                }
                patience.wait_after(round);
            }
            Err(NoMemory) => {
                driving.shared.control().stop(&mut watch);
                call_up(driving, &mut group, &mut rester);
            }
        }
        is_stopped = driving.shared.control().is_stopped(&mut watch);
    }
    unreachable!()
}

// Returns the cores of a group, once its thread has ended, and whether they found that all are
// done.
pub(crate) fn join_seat<R: Threads>(rt: &R, seat: Seat) -> (Vec<Core>, bool)
    ensures same { identities result.0.items ≡ seat_identities seat }
    ensures settled { result.1 ≡ true → EachSettled result.0.items }
{
    let group = match seat {
        Seat::Away(handle) => handle.join(rt),
        Seat::Here(group) => group,
    };
    let is_done = group.is_done();
    (group.into_cores(), is_done)
}
