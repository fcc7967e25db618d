//! Cores on threads, fed by the caller.
ghost use Rattle.std.specs.Prelude.{◌≡◌, ◌↔◌, ◌≤◌, true, length, vec_len, vec_capacity, IfOk};
ghost use Rattle.zy_deal.specs.Deal.{gathered, lists_of, AreEmpty, HaveRoom};
ghost use Rattle.zy_core.specs.Cores.{identities, AreCores, EachSettled};
ghost use Rattle.zy_rounds.specs.Driven.{returned_cores, IsSettledRun, IsBrokenRun};
ghost use Rattle.zy_park.specs.Pass.{GaveNone};
ghost use Rattle.zy_rx.specs.Feed.{rings_of};

use crate::first_group::FirstGroup;
use crate::handed_back::take_back;
use crate::lent::Lent;
use crate::resters::{Resters, rest_of};
use crate::room::Room;
use crate::scoped::{Ran, in_scope};
use crate::seat::Seat;
use crate::tending::How;
use std::alloc::Global;
use std::sync::Wait;
use std::sync::atomic::AtomicU64;
use std::thread::Threads;
use zy_base::{Gate, NoMemory};
use zy_core::{Core, Cores, Shared};
use zy_deal::{collect, deal};
use zy_park::{BellRoot, Bells};
use zy_rounds::{Driven, Driving};
use zy_rx::Feeder;

/// Drives the cores on `threads` threads while the caller feeds them: thread `t` has the cores `i`
/// with `i` modulo `threads` equal to `t`. The caller drives the cores whose thread could not be
/// started. If each of several threads drives one core, and `rest` is not 0, a thread rests at the
/// bells after `rest` turns that did not work, until it is rung. The call may wait.
pub fn drive<R: Threads + Wait + Sync, F: Feeder, G: Gate + Sync>(
    rt: &R,
    alloc: Global,
    cores: Cores,
    threads: u32,
    shared: &Shared,
    gate: &G,
    feeder: &mut F,
    bells: &Bells,
    root: &mut BellRoot,
    rest: u32,
) -> Driven
    requires cores { AreCores shared.now (identities cores) }
    requires threads { (1 ≤ threads) × (threads ≤ 64) }
    requires fresh { ¬ F.ended feeder.old × ¬ F.broken feeder.old }
    requires bells { root.old.bells ≡ bells.now }
    requires count { length bells.now ≡ length shared.now.rings }
    requires free { GaveNone root.old }
    ensures ended { IsSettledRun result → F.ended feeder.new }
    ensures settled { IsSettledRun result → EachSettled (returned_cores result) }
    ensures broken { IsBrokenRun result → F.broken feeder.new }
    ensures same { identities (returned_cores result) ≡ identities cores }
    ensures leads { F.leads feeder.old feeder.new }
    ensures rings { rings_of (F.inlets feeder.new) ≡ rings_of (F.inlets feeder.old) }
{
    drive_groups(
        rt,
        alloc,
        cores,
        threads,
        shared,
        gate,
        feeder,
        bells,
        root,
        rest,
        FirstGroup::Thread,
    )
}

/// Drives the cores as `drive` does, but the first group, that of thread 0, is driven as `first`
/// says. Cores that the caller drives never rest. They take a turn after each 64 items offered in a
/// row. Before a step of the feeder that may wait, they take turns until none works and no block of
/// theirs is away. The call may wait.
pub fn drive_groups<R: Threads + Wait + Sync, F: Feeder, G: Gate + Sync>(
    rt: &R,
    alloc: Global,
    cores: Cores,
    threads: u32,
    shared: &Shared,
    gate: &G,
    feeder: &mut F,
    bells: &Bells,
    root: &mut BellRoot,
    rest: u32,
    first: FirstGroup,
) -> Driven
    requires cores { AreCores shared.now (identities cores) }
    requires threads { (1 ≤ threads) × (threads ≤ 64) }
    requires fresh { ¬ F.ended feeder.old × ¬ F.broken feeder.old }
    requires bells { root.old.bells ≡ bells.now }
    requires count { length bells.now ≡ length shared.now.rings }
    requires free { GaveNone root.old }
    ensures ended { IsSettledRun result → F.ended feeder.new }
    ensures settled { IsSettledRun result → EachSettled (returned_cores result) }
    ensures broken { IsBrokenRun result → F.broken feeder.new }
    ensures same { identities (returned_cores result) ≡ identities cores }
    ensures leads { F.leads feeder.old feeder.new }
    ensures rings { rings_of (F.inlets feeder.new) ≡ rings_of (F.inlets feeder.old) }
{
    let items = cores.into_items();
    let count = items.len();
    let resters = match Resters::new(alloc, bells, root, rest_of(threads, count, rest)) {
        Ok(resters) => resters,
        Err(NoMemory) => return Driven::NoMemory(Cores::from_items(items)),
    };
    let (mut room, whole) = match make_room(alloc, count, threads as usize) {
        Ok(made) => made,
        Err(NoMemory) => {
            drop(resters);
            return Driven::NoMemory(Cores::from_items(items));
        }
    };
    deal(items, &mut room.groups);
    let leave = AtomicU64::new(0);
    let driving = Driving::new(rt, shared, bells, gate);
    let lent = Lent { feeder };
    let (lent, ran) = in_scope(&driving, first, &leave, room, resters, root, lent);
    let Lent { feeder } = lent;
    take_back(feeder);
    let Ran {
        groups,
        is_done,
        how,
    } = ran;
    answer(together(groups, count, whole), is_done, how)
}

// Makes room for the groups of `count` cores on `threads` threads, and for the cores when they are
// together again.
fn make_room(
    alloc: Global,
    count: usize,
    threads: usize,
) -> Result<(Room<Core, Seat>, Vec<Core>), NoMemory>
    requires some { (1 ≤ count) × (1 ≤ threads) }
    requires few { threads ≤ 64 }
    ensures groups { IfOk result (λ made. HaveRoom count made.0.groups.items
        × AreEmpty (lists_of made.0.groups.items)) }
    ensures some { IfOk result (λ made. 1 ≤ vec_len made.0.groups) }
    ensures whole { IfOk result (λ made. (vec_len made.1 ≡ 0) × (count ≤ vec_capacity made.1)) }
{
    let whole = Vec::with_capacity(alloc, count)?;
    match Room::new(alloc, count, threads) {
        Ok(room) => Ok((room, whole)),
        Err(NoMemory) => {
            drop(whole);
            Err(NoMemory)
        }
    }
}

// Returns the cores of the groups, in the order in which they were dealt.
fn together(groups: Vec<Vec<Core>>, count: usize, whole: Vec<Core>) -> Cores
    requires room { (vec_len whole ≡ 0) × (count ≤ vec_capacity whole) }
    ensures value { result ≡ gathered count (lists_of groups.items) }
{
    let mut items = whole;
    collect(groups, count, &mut items);
    Cores::from_items(items)
}

// Returns the answer, by how the caller's own loop ended and whether all cores found that all are
// done.
fn answer(cores: Cores, is_done: bool, how: How) -> Driven
    ensures cores { returned_cores result ≡ cores }
    ensures settled { IsSettledRun result ↔ ((how ≡ How.Ended) × (is_done ≡ true)) }
    ensures broken { IsBrokenRun result ↔ (how ≡ How.Broken) }
{
    match how {
        How::Broken => Driven::Broken(cores),
        How::Stopped => Driven::NoMemory(cores),
        How::Ended => {
            if is_done {
                Driven::Settled(cores)
            } else {
                Driven::NoMemory(cores)
            }
        }
    }
}
