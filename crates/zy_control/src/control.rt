//! The control words.
ghost use Rattle.std.specs.Prelude.{◌≡◌, ◌+◌, ◌<◌, ◌≤◌, true, false, ◌==◌, not, IfOk, IsOk};
ghost use Rattle.std.specs.Int.{bit_at};
ghost use Rattle.zy_control.specs.declared.view.Role.TheVariants.{Core};
ghost use Rattle.zy_control.specs.View.{untraced, number_of, HasBit, IsUncounted, MustHaveCounted, Covers};
ghost use Rattle.zy_control.specs.Pass.{rooted, held, watching, counting, seeing_done, seeing_stop, seeing_sleepers};
ghost use Rattle.zy_control.specs.Pass.{resting};

use crate::pass::{ControlPass, ControlRoot};
use crate::plays::{
    Announces, Counts, Enters, Gives, SeesDone, SeesSleepers, SeesStop, Stops, Withdraws,
};
use crate::view::View;
use atomic_table::{Table, TableRule};
use std::alloc::Global;
use std::marker::Model;
use zy_base::NoMemory;

const DONE: usize = 0;

const STOP: usize = 1;

const SLEEPERS: usize = 2;

// The rule of the control words, which holds between any two steps.
pub(crate) struct Rule;

impl TableRule<u8, View, u64> for Rule {
    ghost use Rattle.zy_control.specs.View.{root_view};
    ghost use Rattle.zy_control.specs.ControlRule.{ControlRule};

    ghost holds = { ControlRule };

    ghost first = { root_view };
}

/// The words done, stop and sleepers. Contracts see which table they are, and the number of cores.
#[derive(Drop)]
pub struct Control {
    table: Table<u8, View, u64, Rule, Global>,
    cores: u64,
}

impl Model for Control {
    ghost use Rattle.std.specs.Prelude.{◌≡◌, ◌<◌, ◌^◌};
    ghost use Rattle.zy_control.specs.Pass.{Controlled, controlled};

    ghost Value = { Controlled };

    ghost view = { λ c. controlled c.table.shared.table_id c.cores };

    ghost invariant = { λ c. (c.table.shared.table_id.words ≡ 3)
        × (c.table.shared.key ≡ c.cores) × (c.cores < 2 ^ 64) };
}

impl Control {
    /// Makes the words of `cores` cores, of which none is done and none rests, and their root.
    pub fn new(alloc: Global, cores: u64) -> Result<(Control, ControlRoot), NoMemory>
        ensures cores { IfOk result (λ made. made.0.cores ≡ cores) }
        ensures root { IfOk result (λ made. made.1 ≡ rooted made.0.id 0 cores) }
    {
        match Table::of_words(alloc, &[0, 0, 0], &cores) {
            Ok((table, seat)) => Ok((
                Control { table, cores },
                ControlRoot {
                    seat,
                    given: 0,
                    cores,
                },
            )),
            Err(_) => Err(NoMemory),
        }
    }

    /// Makes the pass of the next core. This takes no memory, and cannot fail.
    pub fn seat(&self, root: &mut ControlRoot) -> Result<ControlPass, NoMemory>
        requires table { root.old.table ≡ self.now.id }
        requires few { root.old.given < self.now.cores }
        ensures succeeds { IsOk result }
        ensures value { IfOk result (λ pass. pass ≡ held root.old.table
            (Core root.old.given false false) root.old.cores untraced) }
        ensures ok { root.new ≡ rooted root.old.table (root.old.given + 1) root.old.cores }
    {
        let number = root.given;
        let seat = self.table.shared.split_seat::<Gives>(&mut root.seat);
        root.given = number + 1;
        Ok(ControlPass {
            seat,
            number,
            cores: root.cores,
            counted: false,
        })
    }

    /// Makes a pass of a watcher, which never counts itself, by a load of stop, and returns whether
    /// the cores are to stop.
    pub fn watch(&self) -> (ControlPass, bool)
        ensures value { result.0 ≡ watching self.now result.0.trace.stop.value }
        ensures stop { result.1 ≡ not (result.0.trace.stop.value == 0) }
    {
        let (found, seat) = self.table.shared.load_new_seat::<Enters>(STOP);
        let pass = ControlPass {
            seat,
            number: 0,
            cores: self.cores,
            counted: false,
        };
        (pass, found != 0)
    }

    /// Counts the core, which is done once: done rises by one.
    pub fn count(&self, pass: &mut ControlPass)
        requires table { pass.old.table ≡ self.now.id }
        requires first { IsUncounted pass.old.role }
        ensures value { pass.new ≡ counting pass.new.trace.done.value pass.old }
        ensures some { 0 < pass.new.trace.done.value }
    {
        self.table
            .shared
            .fetch_add::<Counts>(&mut pass.seat, DONE, 1);
        pass.counted = true;
    }

    /// Returns how many cores have counted themselves, by one load of done. If all have, this core
    /// is among them.
    pub fn load_done(&self, pass: &mut ControlPass) -> u64
        requires table { pass.old.table ≡ self.now.id }
        ensures pass { pass.new ≡ seeing_done result pass.old }
        ensures counted { result ≡ pass.old.cores → MustHaveCounted pass.old.role }
        ensures lasts { pass.old.trace.done.value ≤ result }
    {
        self.table.shared.load::<SeesDone>(&mut pass.seat, DONE)
    }

    /// Checks whether all cores have counted themselves, by one load of done. If so, this core is
    /// among them.
    pub fn is_done(&self, pass: &mut ControlPass) -> bool
        requires table { pass.old.table ≡ self.now.id }
        ensures value { result ≡ (pass.new.trace.done.value == pass.old.cores) }
        ensures pass { pass.new ≡ seeing_done pass.new.trace.done.value pass.old }
        ensures counted { result ≡ true → MustHaveCounted pass.old.role }
        ensures lasts { pass.old.trace.done.value ≤ pass.new.trace.done.value }
    {
        self.load_done(pass) == pass.cores
    }

    /// Asks all cores to stop: sets bit 0 of stop.
    pub fn stop(&self, pass: &mut ControlPass)
        requires table { pass.old.table ≡ self.now.id }
        ensures pass { pass.new ≡ seeing_stop pass.new.trace.stop.value pass.old }
        ensures set { bit_at pass.new.trace.stop.value 0 ≡ 1 }
        ensures lasts { Covers pass.old.trace.stop.value pass.new.trace.stop.value }
    {
        self.table.shared.fetch_or::<Stops>(&mut pass.seat, STOP, 1);
    }

    /// Loads stop, which is 0 until the cores are to stop.
    pub fn load_stop(&self, pass: &mut ControlPass) -> u64
        requires table { pass.old.table ≡ self.now.id }
        ensures pass { pass.new ≡ seeing_stop result pass.old }
        ensures lasts { Covers pass.old.trace.stop.value result }
    {
        self.table.shared.load::<SeesStop>(&mut pass.seat, STOP)
    }

    /// Checks whether the cores are to stop, by one load of stop.
    pub fn is_stopped(&self, pass: &mut ControlPass) -> bool
        requires table { pass.old.table ≡ self.now.id }
        ensures value { result ≡ not (pass.new.trace.stop.value == 0) }
        ensures pass { pass.new ≡ seeing_stop pass.new.trace.stop.value pass.old }
        ensures lasts { Covers pass.old.trace.stop.value pass.new.trace.stop.value }
    {
        self.load_stop(pass) != 0
    }

    /// Announces that the core rests unless it finds something to do: sets its bit of sleepers.
    pub fn announce(&self, pass: &mut ControlPass)
        requires table { pass.old.table ≡ self.now.id }
        requires core { HasBit pass.old.role }
        ensures value { pass.new ≡ resting true pass.new.trace.sleepers.value pass.old }
        ensures set { bit_at pass.new.trace.sleepers.value (number_of pass.old.role) ≡ 1 }
    {
        let bit = 1 << pass.number;
        self.table
            .shared
            .fetch_or::<Announces>(&mut pass.seat, SLEEPERS, bit);
    }

    /// Withdraws the announcement: clears the core's bit of sleepers.
    pub fn withdraw(&self, pass: &mut ControlPass)
        requires table { pass.old.table ≡ self.now.id }
        requires core { HasBit pass.old.role }
        ensures value { pass.new ≡ resting false pass.new.trace.sleepers.value pass.old }
        ensures cleared { bit_at pass.new.trace.sleepers.value (number_of pass.old.role) ≡ 0 }
    {
        let bit = 1 << pass.number;
        self.table
            .shared
            .fetch_and::<Withdraws>(&mut pass.seat, SLEEPERS, !bit);
    }

    /// Loads sleepers: the bit with the number of a core is 1 if the core has announced itself.
    pub fn load_sleepers(&self, pass: &mut ControlPass) -> u64
        requires table { pass.old.table ≡ self.now.id }
        ensures pass { pass.new ≡ seeing_sleepers result pass.old }
    {
        self.table
            .shared
            .load::<SeesSleepers>(&mut pass.seat, SLEEPERS)
    }
}
