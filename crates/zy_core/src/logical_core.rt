//! One logical core. (A file `core.rt` would be a module with the name of a library.)
ghost use Rattle.std.specs.Prelude.{◌≡◌, ◌↔◌, ◌+◌, ◌<◌, ◌^◌, ◌==◌, ◌&&◌, not, ℕ, true, false, [], length, Some};
ghost use Rattle.std.specs.Prelude.{slice_get, OnOk, OnErr, IfOk};
ghost use Rattle.zy_home.specs.Home.{HomeStands, all_here, is_settled};
ghost use Rattle.zy_steal.specs.Steal.{AreIdle, seats_of};
ghost use Rattle.zy_control.specs.declared.view.Role.TheVariants as roles;
ghost use Rattle.zy_control.specs.View.{has_announced, has_counted};
ghost use Rattle.zy_control.specs.Pass.{seeing_done, seeing_stop, seeing_sleepers};
ghost use Rattle.zy_park.specs.Pass.{ringing_each};
ghost use Rattle.zy_core.specs.Core.{AreOfOne, CoreKeeps, Fits, cored, stepped, with_count, with_announcement};
ghost use Rattle.zy_core.specs.Core.{identity_of};
ghost use Rattle.zy_core.specs.Turn.{HasSteps, TurnTo, CameTo, ShowsBusy};
ghost use Rattle.zy_core.specs.Nap.{NapTo, RestTo, bell_after};
ghost use Rattle.zy_rx.specs.Feed.{rings_of, HasMet};

use crate::nap::Nap;
use crate::shared::Shared;
use crate::stealing::steal_once;
use crate::steps::serve_home;
use crate::turn::{Came, Turn};
use std::marker::Model;
use std::sync::Wait;
use zy_base::{Gate, NoMemory};
use zy_conn::Block;
use zy_control::ControlPass;
use zy_home::{Home, Own};
use zy_park::{BellPass, Bells};
use zy_rx::{Feeder, Outlet};
use zy_steal::{Look, Looks, Passes, Victims};

/// A core: its home, its passes on the other cores' rings, the end of its receive ring, and its pass
/// on the control words. Contracts see it as `Cored`.
#[derive(Drop)]
pub struct Core {
    number: u32,
    home: Home,
    victims: Victims,
    passes: Passes<Block>,
    outlet: Outlet,
    control: ControlPass,
    turns: u64,
}

impl Model for Core {
    ghost use Rattle.std.specs.Prelude.{◌≡◌};
    ghost use Rattle.zy_core.specs.Core.{Cored, CoreKeeps, cored};

    ghost Value = { Cored };

    ghost view = { λ c. cored c.home c.victims c.passes c.outlet c.control c.turns };

    ghost invariant = { λ c. CoreKeeps (cored c.home c.victims c.passes c.outlet c.control c.turns)
        × (c.number ≡ c.home.core) };
}

impl Core {
    /// Makes a core of these parts, which has taken no turn.
    pub fn new(
        home: Home,
        victims: Victims,
        passes: Passes<Block>,
        outlet: Outlet,
        control: ControlPass,
    ) -> Core
        requires one { AreOfOne home victims passes }
        requires live { home.refused ≡ false }
        requires stands { HomeStands home [] }
        requires fresh { home.pass.count ≡ 0 }
        requires outlet { outlet.taken ≡ [] }
        requires idle { AreIdle home.pass.label (seats_of passes.items) }
        requires control { control.role ≡ roles.Core home.core false false }
        ensures value { result ≡ cored home victims passes outlet control 0 }
    {
        // The call tells the prover what the home keeps.
        let _settled = home.is_settled();
        Core {
            number: control.number() as u32,
            home,
            victims,
            passes,
            outlet,
            control,
            turns: 0,
        }
    }

    /// Takes a turn: items are received, blocks are collected, one block is claimed, and if there
    /// was none, one is stolen. After `NoMemory` no block of another core is in the core's hand.
    pub fn turn<G: Gate>(&mut self, shared: &Shared, gate: &G) -> Result<Turn, NoMemory>
        requires fits { Fits shared.now (identity_of self.old) }
        requires few { self.old.turns < 2 ^ 48 }
        requires live { self.old.home.refused ≡ false }
        ensures turn { IfOk result (TurnTo self.old self.new) }
        ensures steps { OnOk result (HasSteps self.old self.new) }
        ensures live { OnOk result (self.new.home.refused ≡ false) }
        ensures same { identity_of self.new ≡ identity_of self.old }
        ensures turns { self.new.turns ≡ self.old.turns + 1 }
        ensures control { self.new.control ≡ self.old.control }
        ensures still { is_settled self.old.home ≡ true → is_settled self.new.home ≡ true }
    {
        let mut looks = Looks::new();
        let came = self.turn_over(shared, gate, &mut looks)?;
        Ok(came.with(looks))
    }

    /// Takes a turn as `turn`, over a table of looks that the caller owns: its looks at the other
    /// cores replace those in the table. So no table is cleared or moved.
    pub fn turn_over<G: Gate>(
        &mut self,
        shared: &Shared,
        gate: &G,
        looks: &mut Looks,
    ) -> Result<Came, NoMemory>
        requires fits { Fits shared.now (identity_of self.old) }
        requires few { self.old.turns < 2 ^ 48 }
        requires live { self.old.home.refused ≡ false }
        ensures turn { IfOk result (CameTo self.old self.new looks.old looks.new) }
        ensures steps { OnOk result (HasSteps self.old self.new) }
        ensures busy { IfOk result (ShowsBusy self.old self.new) }
        ensures live { OnOk result (self.new.home.refused ≡ false) }
        ensures same { identity_of self.new ≡ identity_of self.old }
        ensures turns { self.new.turns ≡ self.old.turns + 1 }
        ensures control { self.new.control ≡ self.old.control }
        ensures still { is_settled self.old.home ≡ true → is_settled self.new.home ≡ true }
    {
        let ring = shared.rings.ring(self.number);
        self.turns += 1;
        let at_home = serve_home(&mut self.home, &mut self.outlet, ring, &shared.store, gate)?;
        let own = match at_home.own {
            Own::Took { held } => return Ok(Came::held(held)),
            Own::Empty { at } => Look::Empty { at },
            Own::Raced { saw, found } => Look::Raced { saw, found },
        };
        let stolen = steal_once(
            &mut self.victims,
            &mut self.passes,
            &shared.rings,
            &shared.store,
            gate,
            self.number,
            looks,
        )?;
        if let Some(end) = stolen {
            return Ok(Came::held(end));
        }
        Ok(Came::of(at_home.received, at_home.collected, own, &self.home))
    }

    /// Shows the outlet and the feeder's inlet what the other end did.
    pub fn meet<F: Feeder>(&mut self, feeder: &mut F)
        requires ring { slice_get (rings_of (F.inlets feeder.old)) self.old.home.core ≡ Some self.old.outlet.ring }
        ensures all { HasMet self.old.home.core (F.inlets feeder.new) self.new.outlet }
        ensures core { self.new ≡ record self.old {
          outlet = record self.old.outlet { known = self.new.outlet.known };
        } }
        ensures rings { rings_of (F.inlets feeder.new) ≡ rings_of (F.inlets feeder.old) }
        ensures ended { (F.ended feeder.new ↔ F.ended feeder.old) × (F.broken feeder.new ↔ F.broken feeder.old) }
        ensures leads { F.leads feeder.old feeder.new }
    {
        feeder.meet(self.number, &mut self.outlet);
    }

    /// Returns its number.
    pub fn number(&self) -> u32
        ensures value { result ≡ self.now.home.core }
    {
        self.number
    }

    /// Counts the core, if it is settled and was not counted yet. Says whether it did.
    pub fn note(&mut self, shared: &Shared) -> bool
        requires fits { Fits shared.now (identity_of self.old) }
        ensures value { result ≡ (not (has_counted self.old.control.role) && is_settled self.old.home) }
        ensures counted { result ≡ true → self.new ≡ with_count self.new.control.trace.done.value self.old }
        ensures kept { result ≡ false → self.new ≡ self.old }
        ensures same { identity_of self.new ≡ identity_of self.old }
    {
        if !self.control.is_counted() && self.home.is_settled() {
            shared.control.count(&mut self.control);
            return true;
        }
        false
    }

    /// Checks whether all cores have counted themselves. Then this one is settled.
    pub fn is_done(&mut self, shared: &Shared) -> bool
        requires fits { Fits shared.now (identity_of self.old) }
        ensures value { result ≡ (self.new.control.trace.done.value == self.old.control.cores) }
        ensures core { self.new ≡ stepped (seeing_done self.new.control.trace.done.value self.old.control) self.old }
        ensures settled { result ≡ true → is_settled self.new.home ≡ true }
        ensures same { identity_of self.new ≡ identity_of self.old }
    {
        shared.control.is_done(&mut self.control)
    }

    /// Takes a nap: the core announces itself, takes a turn, and loads done and stop. It rests
    /// until it is rung if the turn found nothing to do and the run does not end. After that, also
    /// after `NoMemory`, it withdraws what it announced. The call may wait.
    pub fn nap<R: Wait, G: Gate>(
        &mut self,
        rt: &R,
        shared: &Shared,
        bells: &Bells,
        pass: &mut BellPass,
        gate: &G,
    ) -> Result<Nap, NoMemory>
        requires fits { Fits shared.now (identity_of self.old) }
        requires few { self.old.turns < 2 ^ 48 }
        requires live { self.old.home.refused ≡ false }
        requires bells { pass.old.bells ≡ bells.now }
        requires core { pass.old.core ≡ self.old.home.core }
        ensures nap { IfOk result (NapTo (length shared.now.rings) self.old self.new pass.old pass.new) }
        ensures kept { OnErr result (pass.new ≡ pass.old) }
        ensures withdrawn { has_announced self.new.control.role ≡ false }
        ensures live { OnOk result (self.new.home.refused ≡ false) }
        ensures same { identity_of self.new ≡ identity_of self.old }
        ensures turns { self.new.turns ≡ self.old.turns + 1 }
        ensures still { is_settled self.old.home ≡ true → is_settled self.new.home ≡ true }
    {
        self.set_announcement(shared, true);
        let nap = self.rest_if_idle(rt, shared, bells, pass, gate);
        self.set_announcement(shared, false);
        nap
    }

    // Takes the turn of a nap, and rests if there is nothing to do.
    fn rest_if_idle<R: Wait, G: Gate>(
        &mut self,
        rt: &R,
        shared: &Shared,
        bells: &Bells,
        pass: &mut BellPass,
        gate: &G,
    ) -> Result<Nap, NoMemory>
        requires fits { Fits shared.now (identity_of self.old) }
        requires few { self.old.turns < 2 ^ 48 }
        requires live { self.old.home.refused ≡ false }
        requires bells { pass.old.bells ≡ bells.now }
        ensures nap { IfOk result (RestTo (length shared.now.rings) self.old self.new) }
        ensures rested { IfOk result (λ nap. pass.new ≡ bell_after self.new.control nap pass.old) }
        ensures kept { OnErr result (pass.new ≡ pass.old) }
        ensures live { OnOk result (self.new.home.refused ≡ false) }
        ensures same { identity_of self.new ≡ identity_of self.old }
        ensures turns { self.new.turns ≡ self.old.turns + 1 }
        ensures still { is_settled self.old.home ≡ true → is_settled self.new.home ≡ true }
    {
        let turn = self.turn(shared, gate)?;
        let done = self.load_done(shared);
        let stop = self.load_stop(shared);
        let is_counted = self.is_counted();
        let nap = Nap::of(turn, is_counted, shared.count(), done, stop);
        self.rest(rt, &nap, bells, pass);
        Ok(nap)
    }

    // Rests if the nap is one that ends in a rest, with the core's pass on the control words as it
    // is.
    fn rest<R: Wait>(&self, rt: &R, nap: &Nap, bells: &Bells, pass: &mut BellPass)
        requires bells { pass.old.bells ≡ bells.now }
        ensures value { pass.new ≡ bell_after self.now.control nap.now pass.old }
    {
        match nap {
            Nap::Rested => bells.rest_by(rt, pass, &self.control),
            _ => {}
        }
    }

    // Announces that the core rests unless it finds something to do, or withdraws that.
    fn set_announcement(&mut self, shared: &Shared, is_announced: bool)
        requires fits { Fits shared.now (identity_of self.old) }
        ensures value { self.new ≡ with_announcement is_announced self.new.control.trace.sleepers.value self.old }
        ensures role { self.new.control.role
            ≡ roles.Core self.old.home.core (has_counted self.old.control.role) is_announced }
    {
        if is_announced {
            shared.control.announce(&mut self.control);
        } else {
            shared.control.withdraw(&mut self.control);
        }
    }

    // Checks whether it has counted itself.
    fn is_counted(&self) -> bool
        ensures value { result ≡ has_counted self.now.control.role }
    {
        self.control.is_counted()
    }

    // Returns how many cores have counted themselves.
    fn load_done(&mut self, shared: &Shared) -> u64
        requires fits { Fits shared.now (identity_of self.old) }
        ensures value { self.new ≡ stepped (seeing_done result self.old.control) self.old }
    {
        shared.control.load_done(&mut self.control)
    }

    // Returns the word stop.
    fn load_stop(&mut self, shared: &Shared) -> u64
        requires fits { Fits shared.now (identity_of self.old) }
        ensures value { self.new ≡ stepped (seeing_stop result self.old.control) self.old }
    {
        shared.control.load_stop(&mut self.control)
    }

    /// Loads sleepers once, and rings each core whose bit is 1. Returns what it loaded, and takes no
    /// memory.
    pub fn call_up(&mut self, shared: &Shared, bells: &Bells, pass: &mut BellPass) -> u64
        requires fits { Fits shared.now (identity_of self.old) }
        requires core { pass.old.core ≡ self.old.home.core }
        requires bells { pass.old.bells ≡ bells.now }
        requires count { length bells.now ≡ length shared.now.rings }
        ensures value { self.new ≡ stepped (seeing_sleepers result self.old.control) self.old }
        ensures rung { pass.new ≡ ringing_each result pass.old }
    {
        let sleepers = shared.control.load_sleepers(&mut self.control);
        bells.ring_each(pass, sleepers);
        sleepers
    }

    /// Returns how many turns it has taken.
    pub fn turns(&self) -> u64
        ensures value { result ≡ self.now.turns }
    {
        self.turns
    }

    /// Checks whether its home is settled.
    pub fn is_settled(&self) -> bool
        ensures value { result ≡ is_settled self.now.home }
    {
        self.home.is_settled()
    }

    /// Checks whether each block of its home is in the home's hand, so that no other core has one.
    pub fn has_all_blocks(&self) -> bool
        ensures value { result ≡ all_here self.now.home.blocks }
    {
        self.home.has_all_blocks()
    }

    /// Checks whether an allocation failed in its home.
    pub fn is_refused(&self) -> bool
        ensures value { result ≡ self.now.home.refused }
    {
        self.home.is_refused()
    }

    /// Returns the parts, with all that the core keeps. Takes no memory.
    pub fn into_parts(self) -> (Home, Victims, Passes<Block>, Outlet, ControlPass)
        ensures home { result.0 ≡ self.home }
        ensures victims { result.1 ≡ self.thief }
        ensures passes { result.2 ≡ self.passes }
        ensures outlet { result.3 ≡ self.outlet }
        ensures control { result.4 ≡ self.control }
        ensures keeps { CoreKeeps self }
    {
        let Core {
            number: _,
            home,
            victims,
            passes,
            outlet,
            control,
            turns: _,
        } = self;
        (home, victims, passes, outlet, control)
    }
}
