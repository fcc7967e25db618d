//! Which cores rest, and their passes at the bells.
ghost use Rattle.std.specs.Prelude.{◌≡◌, ◌≤◌, ◌==◌, not, length, vec_len, vec_capacity, IfOk, IfSome, OnOk};
ghost use Rattle.zy_park.specs.Pass.{Bells, GaveNone};
ghost use Rattle.zy_core.specs.Cores.{identities};
ghost use Rattle.zy_drive.specs.Resters.{AllAt};
ghost use Rattle.zy_rounds.specs.Resting.{CanRest};
ghost use Rattle.zy_drive.specs.Drive.{idle_turns_before_rest};

use std::alloc::Global;
use std::marker::Model;
use zy_base::NoMemory;
use zy_park::{BellPass, BellRoot, Bells};
use zy_rounds::{Group, Rester};

// The passes of all cores at the bells, by rising core, and after how many turns that did not work
// each rests. There are none if no core rests.
#[derive(Drop)]
pub(crate) struct Resters {
    passes: Vec<BellPass>,
    rest: u32,
}

impl Model for Resters {
    ghost use Rattle.zy_drive.specs.Resters.{AllResting, all_resting};

    ghost Value = { AllResting };

    ghost view = { λ r. all_resting r.passes.items r.rest };
}

impl Resters {
    // Makes the passes of all cores, or none if no core rests.
    pub(crate) fn new(
        alloc: Global,
        bells: &Bells,
        root: &mut BellRoot,
        rest: u32,
    ) -> Result<Resters, NoMemory>
        requires bells { root.old.bells ≡ bells.now }
        requires free { GaveNone root.old }
        requires few { length bells.now ≤ 64 }
        ensures at { IfOk result (λ r. AllAt bells.now r.bells) }
        ensures rest { IfOk result (λ r. r.rest ≡ rest) }
        ensures root { OnOk result (root.new.bells ≡ bells.now) }
    {
        if rest == 0 {
            return Ok(Resters {
                passes: Vec::new(alloc),
                rest,
            });
        }
        let mut passes = Vec::with_capacity(alloc, bells.count())?;
        match seat_all(bells, root, &mut passes) {
            Ok(()) => Ok(Resters { passes, rest }),
            Err(NoMemory) => {
                drop(passes);
                Err(NoMemory)
            }
        }
    }

    // Checks whether cores rest.
    pub(crate) fn are_some(&self) -> bool
        ensures value { result ≡ not (self.now.rest == 0) }
    {
        self.rest != 0
    }

    // Returns the next core's right to rest, if it is the one core of this group.
    pub(crate) fn next(&mut self, group: &Group) -> Option<Rester>
        ensures rests { (bells : Bells) → AllAt bells self.old.bells
            → CanRest bells (identities group.now.cores) result }
        ensures left { (bells : Bells) → AllAt bells self.old.bells → AllAt bells self.new.bells }
        ensures rest { IfSome result (λ r. r.rest ≡ self.old.rest) }
    {
        if self.passes.is_empty() {
            return None;
        }
        let pass = self.passes.remove(0);
        if group.is_alone(pass.core()) {
            Some(Rester::new(pass, self.rest))
        } else {
            drop(pass);
            None
        }
    }
}

// Gives each core its pass.
fn seat_all(bells: &Bells, root: &mut BellRoot, passes: &mut Vec<BellPass>) -> Result<(), NoMemory>
    requires bells { root.old.bells ≡ bells.now }
    requires free { GaveNone root.old }
    requires few { length bells.now ≤ 64 }
    requires none { vec_len passes.old ≡ 0 }
    requires room { length bells.now ≤ vec_capacity passes.old }
    ensures at { OnOk result (AllAt bells.now passes.new.items) }
    ensures root { OnOk result (root.new.bells ≡ bells.now) }
{
    for core in 0..bells.count() as u32 {
        let pass = bells.seat(root, core)?;
        passes.push_reserved(pass);
    }
    Ok(())
}

/// Returns the number of idle turns in a row after which the cores of a run rest, if `rest` was
/// requested; 0 if none rests. A core rests only if it has a thread of its own and there are others
/// to ring it.
pub fn rest_of(threads: u32, cores: usize, rest: u32) -> u32
    ensures value { result ≡ idle_turns_before_rest threads cores rest }
{
    if threads > 1 && threads as usize == cores {
        rest
    } else {
        0
    }
}
