//! Cores that the caller drives: they take turns before a step that may wait, and after 64 items.
ghost use Rattle.std.specs.Prelude.{◌≡◌, ◌≤◌, length};
ghost use Rattle.zy_core.specs.Cores.{identities, AreCores};

use crate::sure::{must, sure};
use crate::watch::Watch;
use std::alloc::Global;
use std::process::Abort;
use std::sync::Wait;
use std::thread::Threads;
use zy_base::{Blob, CallNumbers, MemSource};
use zy_core::{Cores, Running, Shared};
use zy_drive::{FirstGroup, drive_groups};
use zy_feed::{CaptureFeeder, Inlets, Intake};
use zy_park::Bells;
use zy_rounds::Driven;
use zy_rx::{Fed, Feeder, Outlet};
use zy_setup::make_run;

// The cores, with a connection each.
const CORES: u32 = 2;

// The segments of the capture: fewer than a receive ring has slots.
const SEGMENTS: u64 = 250;

// The largest number of bytes that a read gives if it gives all.
const ALL: usize = 65_536;

// What is driven.
#[derive(Clone, Copy)]
struct Case {
    // On one thread the caller drives both cores, on two only core 0.
    threads: u32,
    // The commands of a segment.
    commands: u64,
    // Whether the segments go only to core 0, and not to both cores in turn.
    is_one: bool,
    answer: Answer,
    // The largest number of bytes that a read gives.
    bytes: usize,
}

// Whether the next step may wait.
#[derive(Clone, Copy)]
enum Answer {
    Always,
    Never,
    // As the feeder says.
    AsFed,
}

// A feeder that notes before each step how many of the commands that it offered were not executed
// yet.
#[derive(Drop)]
struct Watched<'g, F> {
    feeder: F,
    gate: &'g Watch,
    case: Case,
    offered: u64,
    waiting: u64,
}

impl<'g, F> Watched<'g, F> {
    fn note(&mut self)
        ensures feeder { self.new.feeder ≡ self.old.feeder }
    {
        let commands = self.offered.saturating_mul(self.case.commands);
        let waiting = commands.saturating_sub(self.gate.passed());
        self.waiting = self.waiting.max(waiting);
    }

    // Notes that a segment was offered, or after the last one an end.
    fn add(&mut self, fed: Fed)
        ensures feeder { self.new.feeder ≡ self.old.feeder }
    {
        if fed == Fed::Offered && self.offered < SEGMENTS {
            self.offered += 1;
        }
    }
}

impl<'g, F: Feeder> Feeder for Watched<'g, F> {
    ghost inlets = { λ w. F.inlets w.feeder };

    ghost ended = { λ w. F.ended w.feeder };

    ghost broken = { λ w. F.broken w.feeder };

    ghost leads = { λ w v. F.leads w.feeder v.feeder };

    fn step(&mut self) -> Fed {
        self.note();
        let fed = self.feeder.step();
        self.add(fed);
        fed
    }

    fn may_wait(&self) -> bool {
        match self.case.answer {
            Answer::Always => true,
            Answer::Never => false,
            Answer::AsFed => self.feeder.may_wait(),
        }
    }

    fn meet(&mut self, core: u32, outlet: &mut Outlet) {
        self.feeder.meet(core, outlet);
    }

    ghost leads_same = { λ w. F.leads_same w.feeder };

    ghost leads_on = { λ w v u p q. F.leads_on w.feeder v.feeder u.feeder p q };
}

// Makes a capture of two connections. A length has two bytes.
fn capture(rt: &impl Abort, alloc: Global, case: Case) -> Blob {
    assert!(rt; case.commands <= 1_000);
    let mut bytes = Blob::new(alloc);
    sure(rt, bytes.append(b"ZYGCAP1\n\0\0\0\x02"));
    for segment in 0..SEGMENTS {
        let conn = if case.is_one { 0 } else { (segment % 2) as u8 };
        let length = 9 * case.commands as u16;
        sure(rt, bytes.append(&[b'S', 0, 0, 0, conn, 0, 0]));
        sure(rt, bytes.append(&length.to_be_bytes()));
        append_commands(rt, &mut bytes, case.commands);
    }
    sure(rt, bytes.append(b"E"));
    bytes
}

fn append_commands(rt: &impl Abort, bytes: &mut Blob, commands: u64) {
    for _ in 0..commands {
        sure(rt, bytes.append(b"version\r\n"));
    }
}

// Returns the largest number of commands that were offered and not yet begun before a step of the
// feeder.
fn most_waiting<R: Threads + Wait + Abort + Sync>(rt: &R, alloc: Global, case: Case) -> u64 {
    assert!(rt; case.bytes >= 1);
    assert!(rt; case.threads >= 1);
    assert!(rt; case.threads <= 64);
    let gate = Watch::new(rt, alloc, false);
    let given = capture(rt, alloc, case);
    let mut source = MemSource::new(given, case.bytes, CallNumbers::new(alloc));
    let most = drive_source(rt, alloc, case, &mut source, &gate);
    drop(source);
    drop(gate);
    most
}

// Returns this number for a run with this source and gate.
fn drive_source<R: Threads + Wait + Abort + Sync>(
    rt: &R,
    alloc: Global,
    case: Case,
    source: &mut MemSource,
    gate: &Watch,
) -> u64
    requires threads { (1 ≤ case.threads) × (case.threads ≤ 64) }
{
    let (intake, _) = sure(rt, Intake::begin(alloc, source));
    match make_run(alloc, CORES, CORES, 16) {
        Ok(running) => drive_run(rt, alloc, case, source, gate, intake, running),
        Err(_) => panic!(rt; "no memory"),
    }
}

// Drives the cores, the first group of them on the caller's thread.
fn drive_run<R: Threads + Wait + Abort + Sync>(
    rt: &R,
    alloc: Global,
    case: Case,
    source: &mut MemSource,
    gate: &Watch,
    intake: Intake,
    running: Running,
) -> u64
    requires threads { (1 ≤ case.threads) × (case.threads ≤ 64) }
    requires cores { AreCores running.shared (identities running.cores) }
    requires count { length running.shared.rings ≡ 2 }
    requires inlets { length running.inlets.items ≡ 2 }
{
    let Running {
        cores,
        shared,
        inlets,
        root,
    } = running;
    let mut feeder = Watched {
        feeder: CaptureFeeder::new(source, intake, Inlets::new(inlets)),
        gate,
        case,
        offered: 0,
        waiting: 0,
    };
    let driven = drive_watched(rt, alloc, cores, &shared, &mut feeder);
    must(rt, end(driven));
    let Watched {
        feeder,
        gate: _,
        case: _,
        offered: _,
        waiting,
    } = feeder;
    drop(feeder);
    drop(shared);
    drop(root);
    waiting
}

// Drives the cores with this feeder, the first group of them on the caller's thread. No core rests.
fn drive_watched<R: Threads + Wait + Abort + Sync, F: Feeder>(
    rt: &R,
    alloc: Global,
    cores: Cores,
    shared: &Shared,
    feeder: &mut Watched<F>,
) -> Driven
    requires threads { (1 ≤ feeder.old.case.threads) × (feeder.old.case.threads ≤ 64) }
    requires cores { AreCores shared.now (identities cores) }
    requires count { length shared.now.rings ≡ 2 }
    requires fresh { ¬ F.ended feeder.old.feeder × ¬ F.broken feeder.old.feeder }
{
    let (bells, mut root) = sure(rt, Bells::new(alloc, CORES));
    let threads = feeder.case.threads;
    let gate = feeder.gate;
    let driven = drive_groups(
        rt,
        alloc,
        cores,
        threads,
        shared,
        gate,
        feeder,
        &bells,
        &mut root,
        0,
        FirstGroup::Caller,
    );
    drop(root);
    drop(bells);
    driven
}

// Checks whether the cores were driven to the end.
fn end(driven: Driven) -> bool {
    match driven {
        Driven::Settled(cores) => {
            drop(cores);
            true
        }
        Driven::Broken(cores) | Driven::NoMemory(cores) => {
            drop(cores);
            false
        }
    }
}

// Makes a case of both cores on the caller's thread, with a command in each segment.
fn alone(answer: Answer, bytes: usize) -> Case {
    Case {
        threads: 1,
        commands: 1,
        is_one: false,
        answer,
        bytes,
    }
}

#[test]
fn a_step_that_may_wait_comes_when_all_is_done(rt: HostRuntime) {
    must(
        &rt,
        most_waiting(&rt, rt.alloc(), alone(Answer::Always, ALL)) == 0,
    );
}

#[test]
fn a_read_comes_when_all_is_done(rt: HostRuntime) {
    must(
        &rt,
        most_waiting(&rt, rt.alloc(), alone(Answer::AsFed, 1)) == 0,
    );
}

#[test]
fn a_turn_comes_after_64_items(rt: HostRuntime) {
    let most = most_waiting(&rt, rt.alloc(), alone(Answer::Never, ALL));
    must(&rt, most >= 64 && most <= 128);
}

// A thief on another thread gives a block back after 64 commands, and only its home goes on with it.
#[test]
fn a_step_that_may_wait_comes_when_no_block_is_away(rt: HostRuntime) {
    let case = Case {
        threads: 2,
        commands: 200,
        is_one: true,
        answer: Answer::Always,
        bytes: ALL,
    };
    must(&rt, most_waiting(&rt, rt.alloc(), case) == 0);
}
