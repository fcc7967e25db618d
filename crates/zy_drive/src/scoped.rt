//! The scope in which threads drive the cores.
ghost use Rattle.std.specs.Prelude.{◌≡◌, true};
ghost use Rattle.zy_drive.specs.Resters.{AllAt};
ghost use Rattle.zy_drive.specs.Seat.{all_of_groups, AllFit, AllSettled};
ghost use Rattle.zy_rx.specs.Feed.{rings_of};
ghost use Rattle.zy_drive.specs.Same.{SameGroups};

use crate::caller::Caller;
use crate::first_group::FirstGroup;
use crate::resters::Resters;
use crate::room::Room;
use crate::seat::Seat;
use crate::seats::{join_all, start_all};
use crate::tending::{How, tend};
use std::sync::Wait;
use std::sync::atomic::AtomicU64;
use std::thread;
use std::thread::{Scope, Threads};
use zy_base::Gate;
use zy_core::Core;
use zy_park::BellRoot;
use zy_rounds::Driving;
use zy_rx::Feeder;

// The groups of cores that came back, whether all of them found that all cores are done, and how
// the caller's own loop ended.
#[derive(Drop)]
pub(crate) struct Ran {
    pub(crate) groups: Vec<Vec<Core>>,
    pub(crate) is_done: bool,
    pub(crate) how: How,
}

// Drives the groups in a scope, each on a thread of its own or with the caller, and hands the feeder
// back.
pub(crate) fn in_scope<R: Threads + Wait + Sync, W: Feeder + Drop, G: Gate + Sync>(
    driving: &Driving<'_, R, G>,
    first: FirstGroup,
    leave: &AtomicU64,
    room: Room<Core, Seat>,
    resters: Resters,
    root: &mut BellRoot,
    feeder: W,
) -> (W, Ran)
    requires fits { AllFit driving.now.shared.now (all_of_groups room.groups.items) }
    requires rests { AllAt driving.now.bells.now resters.bells }
    requires bells { root.old.bells ≡ driving.now.bells.now }
    requires fresh { ¬ W.ended feeder × ¬ W.broken feeder }
    ensures same { SameGroups room.groups.items result.1.groups.items }
    ensures settled { result.1.is_done ≡ true → AllSettled result.1.groups.items }
    ensures ended { result.1.how ≡ How.Ended → W.ended result.0 }
    ensures broken { result.1.how ≡ How.Broken → W.broken result.0 }
    ensures leads { W.leads feeder result.0 }
    ensures rings { rings_of (W.inlets result.0) ≡ rings_of (W.inlets feeder) }
{
    thread::scope(
        thread::scope_env(),
        driving.rt,
        move |scope| -> (W, Ran)
            requires { AllFit driving.now.shared.now (all_of_groups room.groups.items)
                × AllAt driving.now.bells.now resters.bells
                × (root.now.bells ≡ driving.now.bells.now) × (¬ W.ended feeder × ¬ W.broken feeder) }
            ensures same { SameGroups room.groups.items result.1.groups.items }
            ensures settled { result.1.is_done ≡ true → AllSettled result.1.groups.items }
            ensures ended { result.1.how ≡ How.Ended → W.ended result.0 }
            ensures broken { result.1.how ≡ How.Broken → W.broken result.0 }
            ensures leads { W.leads feeder result.0 }
            ensures rings { rings_of (W.inlets result.0) ≡ rings_of (W.inlets feeder) }
        {
            let mut feeder = feeder;
            let ran = run(
                scope,
                driving,
                first,
                leave,
                room,
                resters,
                root,
                &mut feeder,
            );
            (feeder, ran)
        },
    )
}

// Runs in a scope: gives each group its seat, feeds the cores, stops them if the feeding broke off,
// and waits for the threads.
fn run<'s, E, R: Threads + Wait + Sync, F: Feeder, G: Gate + Sync>(
    scope: &Scope<'s, E>,
    driving: &Driving<'s, R, G>,
    first: FirstGroup,
    leave: &'s AtomicU64,
    room: Room<Core, Seat>,
    resters: Resters,
    root: &mut BellRoot,
    feeder: &mut F,
) -> Ran
    requires fits { AllFit driving.now.shared.now (all_of_groups room.groups.items) }
    requires rests { AllAt driving.now.bells.now resters.bells }
    requires bells { root.old.bells ≡ driving.now.bells.now }
    requires fresh { ¬ F.ended feeder.old × ¬ F.broken feeder.old }
    ensures same { SameGroups room.groups.items result.groups.items }
    ensures settled { result.is_done ≡ true → AllSettled result.groups.items }
    ensures ended { result.how ≡ How.Ended → F.ended feeder.new }
    ensures broken { result.how ≡ How.Broken → F.broken feeder.new }
    ensures leads { F.leads feeder.old feeder.new }
    ensures rings { rings_of (F.inlets feeder.new) ≡ rings_of (F.inlets feeder.old) }
{
    let Room {
        groups,
        mut seats,
        mut back,
    } = room;
    let mut caller = Caller::new(driving.shared, root, resters.are_some());
    start_all(scope, driving, first, leave, groups, resters, &mut seats);
    let how = tend(driving, &mut seats, feeder, &mut caller);
    if how != How::Ended {
        caller.stop(driving);
    }
    let is_done = join_all(driving.rt, seats, &mut back);
    Ran {
        groups: back,
        is_done,
        how,
    }
}
