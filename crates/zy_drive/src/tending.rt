//! What the caller does while threads drive the cores.
ghost use Rattle.std.specs.Prelude.{◌≡◌, ◌≢◌, ◌↔◌, ◌&&◌, true, false, Ok, IfOk};
ghost use Rattle.zy_control.specs.Pass.{seeing_stop};
ghost use Rattle.zy_drive.specs.CallUp.{RingsIf};
ghost use Rattle.zy_rounds.specs.Round.{with_work, calls_up};
ghost use Rattle.zy_drive.specs.Seat.{items_after, IfMade};
ghost use Rattle.zy_drive.specs.Seat.{all_of_seats, are_done_here, AllFit};
ghost use Rattle.zy_rx.specs.Feed.{rings_of};
ghost use Rattle.zy_drive.specs.Same.{SameSeats};

use crate::caller::Caller;
use crate::seat::Seat;
use crate::seats::{are_done_here, are_some_away, are_some_here, go_on_here};
use std::sync::Wait;
use zy_base::{Gate, NoMemory};
use zy_core::Shared;
use zy_rounds::{Driving, Patience, Round, Step, feed_once};
use zy_rx::Feeder;

// How many items are offered in a row before the cores that are with the caller take a turn: the
// most that a core receives in a turn.
const ITEMS_A_TURN: u32 = 64;

// How the caller's own loop ended.
#[derive(Clone, Copy, Drop, PartialEq, Eq)]
pub(crate) enum How {
    // The feeder ended, and the cores that are with the caller found that all are done.
    Ended,
    // The feeder is broken.
    Broken,
    // An allocation failed.
    Stopped,
}

// What the caller did before the cores that are with it may take turns.
#[derive(Drop)]
pub(crate) enum Next {
    // The result of its step of the feeder, if one was needed.
    Made(Step),
    // It made a step, and the feeder is broken.
    Broken,
    // It made none, since the cores are to stop.
    Stopped,
}

// Feeds the cores, one item at a time, and lets those that are with the caller take turns. Before each
// step it looks at stop. Before a step that may have to wait for the source, the cores that are with
// the caller take turns until none works and no block of theirs is away.
pub(crate) fn tend<R: Wait, F: Feeder, G: Gate>(
    driving: &Driving<'_, R, G>,
    seats: &mut Vec<Seat>,
    feeder: &mut F,
    caller: &mut Caller<'_>,
) -> How
    requires fits { AllFit driving.now.shared.now (all_of_seats seats.old.items) }
    requires watch { caller.old.watch.table ≡ driving.now.shared.now.control.id }
    requires bells { caller.old.root.now.bells ≡ driving.now.bells.now }
    requires fresh { ¬ F.ended feeder.old × ¬ F.broken feeder.old }
    ensures same { SameSeats seats.old seats.new }
    ensures watch { caller.new.watch.table ≡ caller.old.watch.table }
    ensures bells { caller.new.root.now.bells ≡ caller.old.root.now.bells }
    ensures ended { result ≡ How.Ended → F.ended feeder.new }
    ensures done { result ≡ How.Ended → are_done_here seats.new.items ≡ true }
    ensures broken { result ≡ How.Broken → F.broken feeder.new }
    ensures leads { F.leads feeder.old feeder.new }
    ensures rings { rings_of (F.inlets feeder.new) ≡ rings_of (F.inlets feeder.old) }
{
    let has_here = are_some_here(seats);
    let mut items = 0;
    let mut has_work = false;
    let mut is_ended = false;
    let mut patience = Patience::new();
    for _ in driving.rt.forever() {
        let step = match feed_next(driving.shared, caller, feeder, is_ended, has_work) {
            Next::Made(step) => step,
            Next::Broken => return How::Broken,
            Next::Stopped => return How::Stopped,
        };
        is_ended = step.is_ended;
        caller.ring_if(step.has_offered, driving);
        items = items_after(items, step.has_offered);
        let round = match go_on_if(has_here && items == 0, driving, seats, caller) {
            Ok(round) => round,
            Err(NoMemory) => return How::Stopped,
        };
        has_work = has_here && (items > 0 || round.calls_up() || are_some_away(seats));
        if is_ended && are_done_here(seats) {
            return How::Ended;
        }
        patience.wait_after(found(step.has_offered, round));
    }
    unreachable!()
}

// Loads stop, and makes a step of the feeder only if it is 0.
fn feed_next<F: Feeder>(
    shared: &Shared,
    caller: &mut Caller<'_>,
    feeder: &mut F,
    is_ended: bool,
    has_work: bool,
) -> Next
    requires watch { caller.old.watch.table ≡ shared.now.control.id }
    requires ended { is_ended ≡ true → F.ended feeder.old }
    requires fresh { is_ended ≡ false → ¬ F.ended feeder.old × ¬ F.broken feeder.old }
    ensures stopped { (result ≡ Next.Stopped) ↔ (caller.new.watch.trace.stop.value ≢ 0) }
    ensures kept { result ≡ Next.Stopped → feeder.new ≡ feeder.old }
    ensures watch { caller.new.watch ≡ seeing_stop caller.new.watch.trace.stop.value caller.old.watch }
    ensures bells { caller.new.root.now.bells ≡ caller.old.root.now.bells }
    ensures ended { IfMade result (λ s. s.is_ended ≡ true → F.ended feeder.new) }
    ensures fresh { IfMade result (λ s. s.is_ended ≡ false → ¬ F.ended feeder.new × ¬ F.broken feeder.new) }
    ensures broken { result ≡ Next.Broken → F.broken feeder.new }
    ensures leads { F.leads feeder.old feeder.new }
    ensures rings { rings_of (F.inlets feeder.new) ≡ rings_of (F.inlets feeder.old) }
{
    if caller.is_stopped(shared) {
        return Next::Stopped;
    }
    match feed_once(feeder, is_ended, has_work) {
        Some(step) => Next::Made(step),
        None => Next::Broken,
    }
}

// Returns the number of items offered in a row since the cores that are with the caller took a
// turn: 0 if they are to take one.
fn items_after(items: u32, has_offered: bool) -> u32
    ensures value { result ≡ items_after items has_offered }
{
    if has_offered && items < ITEMS_A_TURN {
        items + 1
    } else {
        0
    }
}

// Returns what the caller found to do, by whether an item was offered, and by the round of its own
// cores.
fn found(has_offered: bool, round: Round) -> Round
    ensures value { result ≡ with_work has_offered round }
{
    match round {
        Round::Idle if has_offered => Round::Worked,
        round => round,
    }
}

// Takes a turn of each core that is with the caller, if `is_due`. If others may have something to do
// after these turns, the caller rings the cores that rest.
fn go_on_if<R, G: Gate>(
    is_due: bool,
    driving: &Driving<'_, R, G>,
    seats: &mut Vec<Seat>,
    caller: &mut Caller<'_>,
) -> Result<Round, NoMemory>
    requires fits { AllFit driving.now.shared.now (all_of_seats seats.old.items) }
    requires watch { caller.old.watch.table ≡ driving.now.shared.now.control.id }
    requires bells { caller.old.root.now.bells ≡ driving.now.bells.now }
    ensures same { SameSeats seats.old seats.new }
    ensures watch { caller.new.watch.table ≡ caller.old.watch.table }
    ensures bells { caller.new.root.now.bells ≡ caller.old.root.now.bells }
    ensures idle { is_due ≡ false → (result ≡ Ok Round.Idle) × (seats.new ≡ seats.old) }
    ensures rung { IfOk result (λ round. RingsIf (calls_up round && caller.old.rings)
        caller.old.watch caller.new.watch caller.old.root.now caller.new.root.now) }
{
    if !is_due {
        return Ok(Round::Idle);
    }
    let round = go_on_here(driving, seats)?;
    caller.ring_if(round.calls_up(), driving);
    Ok(round)
}
