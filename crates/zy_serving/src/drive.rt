//! Driving the cores of a run while its capture is fed.
ghost use Rattle.std.specs.Prelude.{◌≡◌, ◌⊎◌, ◌≤◌, ◌<◌, length, Some, IfOk, IfErr, IsOk};
ghost use Rattle.zy_read.specs.declared.stop.Stop.TheVariants as Stops;
ghost use Rattle.zy_feed.specs.Reads.{HasBegun, StopsIntakeBy};
ghost use Rattle.zy_feed.specs.Feeding.{HasFedAll};
ghost use Rattle.zy_rx.specs.Feed.{rings_of, sent_by};
ghost use Rattle.zy_command_line.specs.Range.{IsRunnable};
ghost use Rattle.zy_core.specs.Cores.{AreCores, AreInlets, EachSettled, identities};
ghost use Rattle.zy_rounds.specs.Driven.{returned_cores, IsSettledRun, IsBrokenRun};
ghost use Rattle.zy_drive.specs.Drive.{idle_turns_before_rest};
ghost use Rattle.zy_serving.specs.Stopping.{stop_after};
ghost use Rattle.zy_core.specs.Running.{rings_in, IsSameRun};
ghost use Rattle.zy_feed.specs.declared.intake.Header.{Header};
ghost use Rattle.zy_setup.specs.New.{AreUnusedRings};

use std::alloc::Global;
use std::sync::Wait;
use std::thread;
use std::thread::Threads;
use zy_base::{Gate, NoMemory, Source};
use zy_command_line::Run;
use zy_core::{Cores, Running, Shared};
use zy_drive::{FirstGroup, drive_groups, rest_of, take_back};
use zy_feed::{
    CaptureFeeder, Inlets, Intake, Stop, a_broken_feeder_has_its_cause,
    a_feeder_that_ended_has_offered_the_capture,
};
use zy_park::Bells;
use zy_rounds::{Driven, drive_ordered};
use zy_rx::Feeder;

/// Feeds the capture to the cores, and drives them until all are settled.
pub(crate) fn drive_capture<R: Threads + Wait + Sync, S: Source, G: Gate + Sync>(
    rt: &R,
    alloc: Global,
    run: Run,
    source: &mut S,
    intake: Intake,
    running: Running,
    gate: &G,
) -> Result<Running, Stop>
    requires runnable { IsRunnable run }
    requires cores { AreCores running.shared (identities running.cores) }
    requires count { length running.shared.rings ≡ run.cores }
    requires rings { rings_of running.inlets.items ≡ rings_in (identities running.cores) }
    requires inlets { AreInlets (rings_of running.inlets.items) (identities running.cores) }
    requires fresh { AreUnusedRings running.inlets.items }

    // The capture, and why it was read no further.
    ensures fed { (first : S) (header : Header) → HasBegun S.rest S.faults first source.old intake header
        → IfOk result (λ ran. HasFedAll S.rest S.faults first source.new header (sent_by ran.inlets.items)) }
    ensures stopped { (first : S) (header : Header) → HasBegun S.rest S.faults first source.old intake header
        → IfErr result (λ stop. StopsIntakeBy S.rest S.faults first source.new stop) }
    ensures reads { (first : S) (header : Header) → HasBegun S.rest S.faults first source.old intake header
        → S.faults first ≤ S.faults source.new }

    // The cores.
    ensures same { IfOk result (IsSameRun running) }
    ensures settled { IfOk result (λ ran. EachSettled ran.cores) }
{
    a_feeder_that_ended_has_offered_the_capture::<S>();
    a_broken_feeder_has_its_cause::<S>();
    let Running {
        cores,
        shared,
        inlets,
        root,
    } = running;
    let mut feeder = CaptureFeeder::new(source, intake, Inlets::new(inlets));
    let driven = drive_cores(rt, alloc, run, cores, &shared, gate, &mut feeder);
    let (source, inlets, stop) = feeder.into_parts();
    take_back(source);
    let inlets = inlets.into_vec();
    match settled_cores(driven, stop) {
        Ok(cores) => Ok(Running {
            cores,
            shared,
            inlets,
            root,
        }),
        Err((cores, stop)) => {
            let stopped = Running {
                cores,
                shared,
                inlets,
                root,
            };
            stopped.abandon();
            Err(stop)
        }
    }
}

// Returns the cores if they are settled, and otherwise hands them back with the cause. The feeder
// stopped for `stop`, if it did.
fn settled_cores(driven: Driven, stop: Option<Stop>) -> Result<Cores, (Cores, Stop)>
    ensures ok { IfOk result (λ cores. IsSettledRun driven × (returned_cores driven ≡ cores)) }
    ensures succeeds { IsSettledRun driven → IsOk result }
    ensures returned { IfErr result (λ e. e.0 ≡ returned_cores driven) }
    ensures cause { IfErr result (λ e. e.1 ≡ stop_after driven stop) }
    ensures err { IfErr result (λ e. (stop ≡ Some e.1) ⊎ (e.1 ≡ Stops.NoMemory)) }
{
    match driven {
        Driven::Settled(cores) => Ok(cores),
        Driven::Broken(cores) => match stop {
            Some(stop) => Err((cores, stop)),
            None => Err((cores, Stop::NoMemory)),
        },
        Driven::NoMemory(cores) => Err((cores, Stop::NoMemory)),
    }
}

// Drives the cores on one thread, by the requested order, or on several, which may rest at bells.
pub(crate) fn drive_cores<R: Threads + Wait + Sync, F: Feeder, G: Gate + Sync>(
    rt: &R,
    alloc: Global,
    run: Run,
    cores: Cores,
    shared: &Shared,
    gate: &G,
    feeder: &mut F,
) -> Driven
    requires runnable { IsRunnable run }
    requires cores { AreCores shared.now (identities cores) }
    requires count { length shared.now.rings ≡ run.cores }
    requires inlets { AreInlets (rings_of (F.inlets feeder.old)) (identities cores) }
    requires fresh { ¬ F.ended feeder.old × ¬ F.broken feeder.old }
    ensures settled { IsSettledRun result
        → F.ended feeder.new × EachSettled (returned_cores result) }
    ensures broken { IsBrokenRun result → F.broken feeder.new }
    ensures same { identities (returned_cores result) ≡ identities cores }
    ensures leads { F.leads feeder.old feeder.new }
    ensures rings { rings_of (F.inlets feeder.new) ≡ rings_of (F.inlets feeder.old) }
{
    if run.threads == 1 {
        return drive_ordered(rt, cores, run.order, shared, gate, feeder);
    }
    let (bells, mut root) = match Bells::new(alloc, run.cores) {
        Ok(made) => made,
        Err(NoMemory) => return Driven::NoMemory(cores),
    };
    let driven = drive_groups(
        rt,
        alloc,
        cores,
        run.threads,
        shared,
        gate,
        feeder,
        &bells,
        &mut root,
        rest_of(run.threads, run.cores as usize, run.rest),
        first_group(rt, run),
    );
    drop(root);
    drop(bells);
    driven
}

// Returns who drives the first group. The caller does if there are several threads, no core rests,
// and there are as many threads as processors, so that none is left for a feeder on a thread of its
// own.
fn first_group<R: Threads>(rt: &R, run: Run) -> FirstGroup
    ensures caller { result ≡ FirstGroup.Caller
        → (1 < run.threads) × (idle_turns_before_rest run.threads run.cores run.rest ≡ 0) }
{
    if run.threads == 1 || rest_of(run.threads, run.cores as usize, run.rest) != 0 {
        return FirstGroup::Thread;
    }
    match thread::available_parallelism(rt) {
        Ok(processors) if processors.get() == run.threads as usize => FirstGroup::Caller,
        _ => FirstGroup::Thread,
    }
}
