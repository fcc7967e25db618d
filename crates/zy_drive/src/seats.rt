//! The groups of all threads.
ghost use Rattle.std.specs.Prelude.{◌≡◌, ◌+◌, ◌≤◌, ◌++◌, true, map, vec_len, vec_capacity, OnOk};
ghost use Rattle.zy_core.specs.Cores.{EachFits};
ghost use Rattle.zy_drive.specs.Resters.{AllAt};
ghost use Rattle.zy_drive.specs.Seat.{seat_identities, all_of_seats, all_of_groups, AllFit, AllSettled};
ghost use Rattle.zy_drive.specs.Seat.{are_some_here, are_some_away, are_done_here, turns_here, turns_due};
ghost use Rattle.zy_drive.specs.Same.{SameSeats};

use crate::first_group::FirstGroup;
use crate::resters::Resters;
use crate::seat::{Seat, join_seat, seat_group};
use std::sync::Wait;
use std::sync::atomic::AtomicU64;
use std::thread::{Scope, Threads};
use zy_base::{Gate, NoMemory};
use zy_core::Core;
use zy_rounds::{Driving, Group, Round};

// Gives each group its seat, in turn. A group that is one core on a thread of its own, and has its
// pass at the bells, may rest.
pub(crate) fn start_all<'s, E, R: Wait + Sync, G: Gate + Sync>(
    scope: &Scope<'s, E>,
    driving: &Driving<'s, R, G>,
    first: FirstGroup,
    leave: &'s AtomicU64,
    groups: Vec<Vec<Core>>,
    resters: Resters,
    seats: &mut Vec<Seat>,
)
    requires few { vec_len groups ≤ 64 }
    requires room { vec_len seats.old + vec_len groups ≤ vec_capacity seats.old }
    requires fits { AllFit driving.now.shared.now (all_of_groups groups.items) }
    requires bells { AllAt driving.now.bells.now resters.bells }
    ensures same { all_of_seats seats.new.items ≡ all_of_seats seats.old.items ++ all_of_groups groups.items }
    ensures len { vec_len seats.new ≡ vec_len seats.old + vec_len groups }
{
    let mut groups = groups;
    let mut resters = resters;
    let count = groups.len();
    for t in 0..count {
        let group = Group::new(groups.remove(0));
        let rester = resters.next(&group);
        let seat = seat_group(scope, driving, first, leave, group, rester, 1 << t);
        seats.push_reserved(seat);
    }
    drop(resters);
}

// Takes a turn of each core that is with the caller.
pub(crate) fn go_on_here<R, G: Gate>(
    driving: &Driving<'_, R, G>,
    seats: &mut Vec<Seat>,
) -> Result<Round, NoMemory>
    requires fits { AllFit driving.now.shared.now (all_of_seats seats.old.items) }
    ensures turns { OnOk result (map turns_here seats.new.items ≡ map turns_due seats.old.items) }
    ensures same { SameSeats seats.old seats.new }
{
    let mut all = Round::Idle;
    for i in 0..seats.len() {
        let seat = &mut seats[i];
        let round = go_on_seat(driving, seat)?;
        all = all.with(round);
    }
    Ok(all)
}

// Takes a turn of each core of a group that is with the caller and not done.
fn go_on_seat<R, G: Gate>(driving: &Driving<'_, R, G>, seat: &mut Seat) -> Result<Round, NoMemory>
    requires fits { EachFits driving.now.shared.now (seat_identities seat.old) }
    ensures turns { OnOk result (turns_here seat.new ≡ turns_due seat.old) }
    ensures same { seat_identities seat.new ≡ seat_identities seat.old }
{
    match seat {
        Seat::Away(_) => Ok(Round::Idle),
        Seat::Here(group) => {
            if group.is_done() {
                return Ok(Round::Idle);
            }
            group.go_on(driving)
        }
    }
}

// Checks whether a group is with the caller.
pub(crate) fn are_some_here(seats: &[Seat]) -> bool
    ensures value { result ≡ are_some_here seats.now }
{
    for seat in seats {
        if let Seat::Here(_) = seat {
            return true;
        }
    }
    false
}

// Checks whether a block of a core that is with the caller is away.
pub(crate) fn are_some_away(seats: &[Seat]) -> bool
    ensures value { result ≡ are_some_away seats.now }
{
    for seat in seats {
        if let Seat::Here(group) = seat {
            if !group.has_all_blocks() {
                return true;
            }
        }
    }
    false
}

// Checks whether each group that is with the caller is done.
pub(crate) fn are_done_here(seats: &[Seat]) -> bool
    ensures value { result ≡ are_done_here seats.now }
{
    for seat in seats {
        if let Seat::Here(group) = seat {
            if !group.is_done() {
                return false;
            }
        }
    }
    true
}

// Returns the cores of all groups, once their threads have ended, and whether all found that all
// are done.
pub(crate) fn join_all<R: Threads>(rt: &R, seats: Vec<Seat>, back: &mut Vec<Vec<Core>>) -> bool
    requires room { vec_len back.old + vec_len seats ≤ vec_capacity back.old }
    ensures same { all_of_groups back.new.items ≡ all_of_groups back.old.items ++ all_of_seats seats.items }
    ensures settled { result ≡ true → AllSettled back.old.items → AllSettled back.new.items }
{
    let mut seats = seats;
    let mut all = true;
    for _ in 0..seats.len() {
        let (cores, is_done) = join_seat(rt, seats.remove(0));
        back.push_reserved(cores);
        all = both(all, is_done);
    }
    all
}

// Checks whether both hold.
fn both(one: bool, other: bool) -> bool
    ensures value { result ≡ true → (one ≡ true) × (other ≡ true) }
{
    one && other
}
