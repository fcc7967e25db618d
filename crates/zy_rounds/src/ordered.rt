//! Rounds of turns on the caller's thread.
ghost use Rattle.std.specs.Prelude.{◌≡◌, ◌↔◌, ◌<◌, ◌≤◌, Some, slice_get, vec_len, OnOk};
ghost use Rattle.zy_core.specs.Core.{Fits, identity_of};
ghost use Rattle.zy_core.specs.Cores.{identities, AreCores, AreInlets, EachFits, EachSettled};
ghost use Rattle.zy_rounds.specs.Driven.{returned_cores, IsSettledRun, IsBrokenRun};
ghost use Rattle.zy_rx.specs.Feed.{rings_of};
ghost use Rattle.zy_rounds.specs.Same.{SameCore, SameCores};
ghost use Rattle.zy_rounds.specs.Turns.{HaveTurned, next_turn};

mod draws;

use crate::driven::Driven;
use crate::feeding::feed;
use crate::ordered::draws::{Draws, turn_of};
use crate::turns::{are_settled, turn_one};
use std::sync::Wait;
use zy_base::{Gate, NoMemory};
use zy_core::{Core, Cores, Shared};
use zy_rx::Feeder;
use zy_steal::Looks;

/// Drives the cores on the caller's thread: the feeder offers items until one is handed back or all
/// are offered, then each core takes a turn, and so on until all are settled. A round begins with
/// core 0, or with a core that the order generates, and goes on by number. Each core meets the
/// feeder before its turn. The call may wait.
pub fn drive_ordered<R: Wait, F: Feeder, G: Gate>(
    rt: &R,
    cores: Cores,
    order: Option<u32>,
    shared: &Shared,
    gate: &G,
    feeder: &mut F,
) -> Driven
    requires cores { AreCores shared.now (identities cores) }
    requires inlets { AreInlets (rings_of (F.inlets feeder.old)) (identities cores) }
    requires fresh { ¬ F.ended feeder.old × ¬ F.broken feeder.old }
    ensures ended { IsSettledRun result → F.ended feeder.new }
    ensures settled { IsSettledRun result → EachSettled (returned_cores result) }
    ensures broken { IsBrokenRun result → F.broken feeder.new }
    ensures same { identities (returned_cores result) ≡ identities cores }
    ensures leads { F.leads feeder.old feeder.new }
    ensures rings { rings_of (F.inlets feeder.new) ≡ rings_of (F.inlets feeder.old) }
{
    let mut items = cores.into_items();
    let mut draws = Draws::new(order);
    let mut is_ended = false;
    let mut looks = Looks::new();
    for _ in rt.forever() {
        match feed(rt, feeder, is_ended) {
            Some(ended) => is_ended = ended,
            None => return Driven::Broken(Cores::from_items(items)),
        }
        let first = draws.next(items.len() as u32);
        match round(&mut items, first, shared, gate, feeder, &mut looks) {
            Ok(()) => {}
            Err(NoMemory) => return Driven::NoMemory(Cores::from_items(items)),
        }
        if is_ended && are_settled(&items) {
            return Driven::Settled(Cores::from_items(items));
        }
    }
    unreachable!()
}

// Takes a turn of each core, beginning with this one.
fn round<F: Feeder, G: Gate>(
    cores: &mut Vec<Core>,
    first: u32,
    shared: &Shared,
    gate: &G,
    feeder: &mut F,
    looks: &mut Looks,
) -> Result<(), NoMemory>
    requires first { first < vec_len cores.old }
    requires few { vec_len cores.old ≤ 64 }
    requires fits { EachFits shared.now (identities cores.old.items) }
    requires inlets { AreInlets (rings_of (F.inlets feeder.old)) (identities cores.old.items) }
    ensures turns { OnOk result (HaveTurned cores.old.items cores.new.items) }
    ensures same { SameCores cores.old.items cores.new.items }
    ensures ended { (F.ended feeder.new ↔ F.ended feeder.old) × (F.broken feeder.new ↔ F.broken feeder.old) }
    ensures leads { F.leads feeder.old feeder.new }
    ensures rings { rings_of (F.inlets feeder.new) ≡ rings_of (F.inlets feeder.old) }
{
    let count = cores.len() as u32;
    for turn in 0..count {
        let at = turn_of(count, first, turn) as usize;
        let core = &mut cores[at];
        meet_and_turn(core, shared, gate, feeder, looks)?;
    }
    Ok(())
}

// Lets the core meet the feeder and take a turn.
fn meet_and_turn<F: Feeder, G: Gate>(
    core: &mut Core,
    shared: &Shared,
    gate: &G,
    feeder: &mut F,
    looks: &mut Looks,
) -> Result<(), NoMemory>
    requires fits { Fits shared.now (identity_of core.old) }
    requires inlet { slice_get (rings_of (F.inlets feeder.old)) core.old.home.core ≡ Some core.old.outlet.ring }
    ensures turns { OnOk result (core.new.turns ≡ next_turn core.old.turns) }
    ensures same { SameCore core.old core.new }
    ensures ended { (F.ended feeder.new ↔ F.ended feeder.old) × (F.broken feeder.new ↔ F.broken feeder.old) }
    ensures leads { F.leads feeder.old feeder.new }
    ensures rings { rings_of (F.inlets feeder.new) ≡ rings_of (F.inlets feeder.old) }
{
    core.meet(feeder);
    turn_one(core, shared, gate, looks)?;
    Ok(())
}
