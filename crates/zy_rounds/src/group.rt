//! The cores that one thread drives.
ghost use Rattle.std.specs.Prelude.{◌≡◌, ◌≢◌, true, false, length, IfOk, OnOk, OnErr};
ghost use Rattle.zy_core.specs.Cores.{identities, EachFits, EachSettled};
ghost use Rattle.zy_rounds.specs.Turns.{HaveTurned, SameTurns};
ghost use Rattle.zy_rounds.specs.Counting.{have_all_blocks, HasOne, SeesOthers, EachNoted};
ghost use Rattle.zy_rounds.specs.Naps.{IsAlone, CallsUp};
ghost use Rattle.zy_rounds.specs.Same.{SameCores, SameBell};
ghost use Rattle.zy_rounds.specs.Group.{grouped, GroupTurned, GroupNapped};

use crate::driving::Driving;
use crate::naps::{call_up_first, nap_first};
use crate::round::Round;
use crate::turns::{all_done, have_all_blocks, note_each, turn_each};
use std::marker::Model;
use std::sync::Wait;
use zy_base::{Gate, NoMemory};
use zy_core::{Core, Shared};
use zy_park::BellPass;
use zy_steal::Looks;

/// The cores that one thread drives, and whether they found that all cores are done; then they are
/// settled. Contracts see it as `Grouped`.
#[derive(Drop)]
pub struct Group {
    cores: Vec<Core>,
    done: bool,
    // Scratch space for the looks of their turns.
    looks: Looks,
}

impl Model for Group {
    ghost use Rattle.std.specs.Prelude.{◌≡◌, true};
    ghost use Rattle.zy_core.specs.Cores.{EachSettled};
    ghost use Rattle.zy_rounds.specs.Group.{Grouped, grouped};

    ghost Value = { Grouped };

    ghost view = { λ g. grouped g.cores.items g.done };

    ghost invariant = { λ g. g.done ≡ true → EachSettled g.cores.items };
}

impl Group {
    /// Makes the group of these cores.
    pub fn new(cores: Vec<Core>) -> Group
        ensures value { result ≡ grouped cores.items false }
    {
        Group {
            cores,
            done: false,
            looks: Looks::new(),
        }
    }

    /// Checks whether it is the one core with this number.
    pub fn is_alone(&self, number: u32) -> bool
        ensures value { result ≡ true → IsAlone number (identities self.now.cores) }
    {
        self.cores.len() == 1 && self.cores[0].number() == number
    }

    /// Takes a turn of each core, counts those that are settled, and looks whether all are done.
    pub fn go_on<R, G: Gate>(&mut self, driving: &Driving<'_, R, G>) -> Result<Round, NoMemory>
        requires fits { EachFits driving.now.shared.now (identities self.old.cores) }
        ensures turns { OnOk result (HaveTurned self.old.cores self.new.cores) }
        ensures others { OnOk result (self.new.done ≡ false → HasOne SeesOthers self.new.cores) }
        ensures same { SameCores self.old.cores self.new.cores }
    {
        let round = self.turn(driving)?;
        self.look(driving.shared);
        Ok(round)
    }

    // Takes a turn of each core, and counts those that are settled.
    pub(crate) fn turn<R, G: Gate>(
        &mut self,
        driving: &Driving<'_, R, G>,
    ) -> Result<Round, NoMemory>
        requires fits { EachFits driving.now.shared.now (identities self.old.cores) }
        ensures value { IfOk result (GroupTurned self.old.cores self.new.cores) }
        ensures turns { OnOk result (HaveTurned self.old.cores self.new.cores) }
        ensures noted { OnOk result (EachNoted self.new.cores) }
        ensures awake { IfOk result (λ round. round ≢ Round.Rested) }
        ensures same { SameCores self.old.cores self.new.cores }
    {
        self.done = false;
        let round = turn_each(
            &mut self.cores,
            driving.shared,
            driving.gate,
            &mut self.looks,
        )?;
        let counted = note_each(&mut self.cores, driving.shared);
        Ok(round.then(counted))
    }

    // Takes a nap of its one core, and counts it if it is settled.
    pub(crate) fn nap<R: Wait, G: Gate>(
        &mut self,
        driving: &Driving<'_, R, G>,
        pass: &mut BellPass,
    ) -> Result<Round, NoMemory>
        requires fits { EachFits driving.now.shared.now (identities self.old.cores) }
        requires alone { IsAlone pass.old.core (identities self.old.cores) }
        requires bells { pass.old.bells ≡ driving.now.bells.now }
        ensures value { IfOk result (GroupNapped (length driving.now.shared.now.rings)
            self.old.cores self.new.cores pass.old pass.new) }
        ensures turns { OnOk result (HaveTurned self.old.cores self.new.cores) }
        ensures noted { OnOk result (EachNoted self.new.cores) }
        ensures same { SameCores self.old.cores self.new.cores }
        ensures pass { SameBell pass.old pass.new }
        ensures kept { OnErr result (pass.new ≡ pass.old) }
    {
        self.done = false;
        let round = nap_first(
            driving.rt,
            &mut self.cores,
            driving.shared,
            driving.bells,
            pass,
            driving.gate,
        )?;
        let counted = note_each(&mut self.cores, driving.shared);
        Ok(round.then(counted))
    }

    // Lets its one core call up those that rest.
    pub(crate) fn call_up<R, G>(&mut self, driving: &Driving<'_, R, G>, pass: &mut BellPass)
        requires fits { EachFits driving.now.shared.now (identities self.old.cores) }
        requires alone { IsAlone pass.old.core (identities self.old.cores) }
        requires bells { pass.old.bells ≡ driving.now.bells.now }
        ensures rung { CallsUp self.old.cores self.new.cores pass.old pass.new }
        ensures turns { SameTurns self.old.cores self.new.cores }
        ensures same { SameCores self.old.cores self.new.cores }
        ensures pass { SameBell pass.old pass.new }
    {
        self.done = false;
        call_up_first(&mut self.cores, driving.shared, driving.bells, pass);
    }

    // Looks whether all cores are done.
    pub(crate) fn look(&mut self, shared: &Shared)
        requires fits { EachFits shared.now (identities self.old.cores) }
        ensures others { self.new.done ≡ false → HasOne SeesOthers self.new.cores }
        ensures turns { SameTurns self.old.cores self.new.cores }
        ensures same { SameCores self.old.cores self.new.cores }
    {
        self.done = false;
        self.done = all_done(&mut self.cores, shared);
    }

    /// Checks whether its cores found that all cores are done.
    pub fn is_done(&self) -> bool
        ensures value { result ≡ self.now.done }
    {
        self.done
    }

    /// Checks whether no block of its cores is away.
    pub fn has_all_blocks(&self) -> bool
        ensures value { result ≡ have_all_blocks self.now.cores }
    {
        have_all_blocks(&self.cores)
    }

    /// Returns the cores.
    pub fn into_cores(self) -> Vec<Core>
        ensures value { result.items ≡ self.cores }
        ensures settled { self.done ≡ true → EachSettled result.items }
    {
        let Group {
            cores,
            done: _,
            looks: _,
        } = self;
        cores
    }
}
