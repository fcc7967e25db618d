//! How a thread that drives one core rests.
ghost use Rattle.std.specs.Prelude.{◌≡◌, ◌≤◌, nat_lt, length, IfOk, OnOk, OnErr, Ok};
ghost use Rattle.zy_core.specs.Cores.{identities, EachFits};
ghost use Rattle.zy_rounds.specs.Turns.{HaveTurned, SameTurns};
ghost use Rattle.zy_rounds.specs.Naps.{IsAlone};
ghost use Rattle.zy_rounds.specs.Same.{SameCores, SameBell};
ghost use Rattle.zy_rounds.specs.Resting.{CanRest, GroupRested, GroupWorked, CallsUpIf};
ghost use Rattle.zy_rounds.specs.Resting.{idle_after, resting_after, resting_at};

use crate::driving::Driving;
use crate::group::Group;
use crate::round::Round;
use std::marker::Model;
use std::sync::Wait;
use zy_base::{Gate, NoMemory};
use zy_park::BellPass;

/// The right of a group's one core to rest: its pass at the bells, after how many turns that did not
/// work it rests, and how many it took since one worked. Contracts see it as `Resting`.
#[derive(Drop)]
pub struct Rester {
    pass: BellPass,
    rest: u32,
    idle: u32,
}

impl Model for Rester {
    ghost use Rattle.zy_rounds.specs.Resting.{Resting, resting_at};

    ghost Value = { Resting };

    ghost view = { λ r. resting_at r.pass r.rest r.idle };
}

impl Rester {
    /// Makes the right to rest of the core of this pass, which has just worked.
    pub fn new(pass: BellPass, rest: u32) -> Rester
        ensures value { result ≡ resting_at pass rest 0 }
    {
        Rester {
            pass,
            rest,
            idle: 0,
        }
    }

    // Takes a round of the group: a nap after `rest` turns that did not work, and otherwise a turn.
    // If others may have something to do after it, the core calls them up.
    fn go_on<R: Wait, G: Gate>(
        &mut self,
        driving: &Driving<'_, R, G>,
        group: &mut Group,
    ) -> Result<Round, NoMemory>
        requires fits { EachFits driving.now.shared.now (identities group.old.cores) }
        requires alone { IsAlone self.old.bell.core (identities group.old.cores) }
        requires bells { self.old.bell.bells ≡ driving.now.bells.now }
        ensures value { IfOk result (GroupRested (length driving.now.shared.now.rings)
            group.old.cores group.new.cores self.old self.new) }
        ensures rested { result ≡ Ok Round.Rested → self.old.rest ≤ self.old.idle }
        ensures turns { OnOk result (HaveTurned group.old.cores group.new.cores) }
        ensures ok { IfOk result (λ round. self.new ≡ resting_after round self.new.bell self.old) }
        ensures err { OnErr result (self.new ≡ self.old) }
        ensures same { SameCores group.old.cores group.new.cores }
        ensures bell { SameBell self.old.bell self.new.bell }
    {
        let round = self.work(driving, group)?;
        self.call_up_if(round.calls_up(), driving, group);
        group.look(driving.shared);
        self.idle = idle_after(self.idle, self.rest, round);
        Ok(round)
    }

    // Takes a nap of the group after `rest` turns that did not work, and otherwise a turn.
    fn work<R: Wait, G: Gate>(
        &mut self,
        driving: &Driving<'_, R, G>,
        group: &mut Group,
    ) -> Result<Round, NoMemory>
        requires fits { EachFits driving.now.shared.now (identities group.old.cores) }
        requires alone { IsAlone self.old.bell.core (identities group.old.cores) }
        requires bells { self.old.bell.bells ≡ driving.now.bells.now }
        ensures value { IfOk result (GroupWorked (length driving.now.shared.now.rings) (nat_lt self.old.idle self.old.rest)
            group.old.cores group.new.cores self.old.bell self.new.bell) }
        ensures rested { result ≡ Ok Round.Rested → self.old.rest ≤ self.old.idle }
        ensures turns { OnOk result (HaveTurned group.old.cores group.new.cores) }
        ensures err { OnErr result (self.new ≡ self.old) }
        ensures kept { (self.new.rest ≡ self.old.rest) × (self.new.idle ≡ self.old.idle) }
        ensures same { SameCores group.old.cores group.new.cores }
        ensures bell { SameBell self.old.bell self.new.bell }
    {
        if self.idle < self.rest {
            return group.turn(driving);
        }
        group.nap(driving, &mut self.pass)
    }

    // Calls up the cores that rest, if `is_due`.
    fn call_up_if<R, G>(&mut self, is_due: bool, driving: &Driving<'_, R, G>, group: &mut Group)
        requires fits { EachFits driving.now.shared.now (identities group.old.cores) }
        requires alone { IsAlone self.old.bell.core (identities group.old.cores) }
        requires bells { self.old.bell.bells ≡ driving.now.bells.now }
        ensures rung { CallsUpIf is_due group.old.cores group.new.cores self.old.bell self.new.bell }
        ensures turns { SameTurns group.old.cores group.new.cores }
        ensures kept { (self.new.rest ≡ self.old.rest) × (self.new.idle ≡ self.old.idle) }
        ensures same { SameCores group.old.cores group.new.cores }
        ensures bell { SameBell self.old.bell self.new.bell }
    {
        if is_due {
            group.call_up(driving, &mut self.pass);
        }
    }
}

// Returns the number of rounds in a row that found nothing, at most `most`.
fn idle_after(idle: u32, most: u32, round: Round) -> u32
    ensures value { result ≡ idle_after most idle round }
{
    match round {
        Round::Worked | Round::Busy | Round::Rested => 0,
        Round::Idle => { if idle < most { idle + 1 } else { most } }
    }
}

/// Takes a round of a group, in which it may rest if it has the right to. The call may wait.
pub fn go_on<R: Wait, G: Gate>(
    driving: &Driving<'_, R, G>,
    group: &mut Group,
    rester: &mut Option<Rester>,
) -> Result<Round, NoMemory>
    requires fits { EachFits driving.now.shared.now (identities group.old.cores) }
    requires rests { CanRest driving.now.bells.now (identities group.old.cores) rester.old }
    ensures turns { OnOk result (HaveTurned group.old.cores group.new.cores) }
    ensures same { SameCores group.old.cores group.new.cores }
    ensures rests { CanRest driving.now.bells.now (identities group.old.cores) rester.new }
{
    match rester {
        Some(rester) => rester.go_on(driving, group),
        None => group.go_on(driving),
    }
}

/// Calls up the cores that rest, if this one can rest.
pub fn call_up<R, G>(driving: &Driving<'_, R, G>, group: &mut Group, rester: &mut Option<Rester>)
    requires fits { EachFits driving.now.shared.now (identities group.old.cores) }
    requires rests { CanRest driving.now.bells.now (identities group.old.cores) rester.old }
    ensures same { SameCores group.old.cores group.new.cores }
    ensures rests { CanRest driving.now.bells.now (identities group.old.cores) rester.new }
{
    match rester {
        Some(rester) => group.call_up(driving, &mut rester.pass),
        None => {}
    }
}
