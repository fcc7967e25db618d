//! One core's passes on the rings of the others.
ghost use Rattle.std.specs.Prelude.{◌≡◌, ◌≢◌, ◌^◌, ◌<◌, ◌≤◌, [], ◌∷◌, ◌++◌, length};
ghost use Rattle.std.specs.Prelude.{OnOk, OnErr, IfErr, IfNone, option_to_list};
ghost use Rattle.zy_steal.specs.Order.{number_of, other_core};
ghost use Rattle.zy_steal.specs.Steal.{ArePasses, IsOther, HoldsOf, GivesTo, pass_list};
ghost use Rattle.zy_steal.specs.Range.{ClaimsAt, LooksOnce, RangesTo, TurnsTo};

use crate::looks::{Look, Looks};
use crate::rings::Rings;
use std::alloc::Global;
use std::marker::Model;
use zy_base::NoMemory;
use zy_shuffle::{Claim, CorePass, Marked};

/// One core's passes on the rings of the other cores. Contracts see the core, and the list of the
/// passes by rising number of core.
#[derive(Drop)]
pub struct Passes<T> {
    core: u32,
    items: Vec<CorePass<T>>,
}

impl<T> Model for Passes<T> {
    ghost use Rattle.zy_steal.specs.Steal.{PassList, pass_list};

    ghost Value = { PassList T };

    ghost view = { λ p. pass_list p.core p.items.items };
}

impl<T: Marked> Passes<T> {
    /// Begins without a pass of this core. Takes no memory.
    pub fn new(alloc: Global, core: u32) -> Passes<T>
        ensures value { result ≡ pass_list core [] }
    {
        Passes {
            core,
            items: Vec::new(alloc),
        }
    }

    /// Appends the pass on the ring of the next other core; if allocation fails, it is handed back.
    pub fn push(&mut self, pass: CorePass<T>) -> Result<(), (CorePass<T>, NoMemory)>
        ensures ok { OnOk result (self.new ≡ pass_list self.old.core (self.old.items ++ pass ∷ [])) }
        ensures err { OnErr result (self.new ≡ self.old) }
        ensures returned { IfErr result (λ e. e.0 ≡ pass) }
    {
        match self.items.push(pass) {
            Ok(()) => Ok(()),
            Err(e) => Err((e.value, NoMemory)),
        }
    }

    /// Takes the first pass; `None` if and only if there is none. Takes no memory.
    pub fn next(&mut self) -> Option<CorePass<T>>
        ensures kept { self.new.core ≡ self.old.core }
        ensures value { self.old.items ≡ option_to_list result ++ self.new.items }
        ensures none { IfNone result (self.old.items ≡ []) }
    {
        if self.items.is_empty() {
            return None;
        }
        Some(self.items.remove(0))
    }

    /// Gives a block back to the core from which it was taken. It cannot fail, and takes no memory.
    pub fn give_back(&mut self, rings: &Rings<T>, victim: u32, place: u32, block: T)
        requires within { ArePasses rings.now self.old }
        requires other { IsOther self.old.core (length rings.now) victim }
        requires holds { HoldsOf T.mark T.label self.old victim place block }
        ensures kept { self.new.core ≡ self.old.core }
        ensures within { ArePasses rings.now self.new }
        ensures value { GivesTo self.old self.new victim place block }
    {
        let ring = rings.ring(victim);
        let at = number_of(self.core, victim);
        ring.give_back(&mut self.items[at as usize], place, block);
    }

    // Makes a claim by each pass, in a turn that begins with the pass of this number, until one
    // takes a block.
    pub(crate) fn turn(
        &mut self,
        rings: &Rings<T>,
        start: u32,
        looks: &mut Looks,
    ) -> Option<Taken<T>>
        requires within { ArePasses rings.now self.old }
        requires few { length rings.now ≤ 64 }
        requires start { start ≤ length self.old.items }
        ensures kept { self.new.core ≡ self.old.core }
        ensures value { TurnsTo T.mark T.label self.old.core self.old.items self.new.items looks.old looks.new start
            (length self.old.items) result }
    {
        let count = self.items.len() as u32;
        match self.range(rings, start, count, looks) {
            Some(taken) => Some(taken),
            None => self.range(rings, 0, start, looks),
        }
    }

    // Makes a claim by each pass from one number to another, until one takes a block.
    fn range(&mut self, rings: &Rings<T>, from: u32, to: u32, looks: &mut Looks) -> Option<Taken<T>>
        requires within { ArePasses rings.now self.old }
        requires few { length rings.now ≤ 64 }
        requires to { (from ≤ to) × (to ≤ length self.old.items) }
        ensures kept { self.new.core ≡ self.old.core }
        ensures value { RangesTo T.mark T.label self.old.core self.old.items self.new.items looks.old looks.new from
            to result }
    {
        let mut at = from;
        while at < to {
            match self.look(rings, at, looks) {
                Some(taken) => return Some(taken),
                None => at += 1,
            }
        }
        None
    }

    // Makes a claim by the pass of this number. If it takes nothing, notes the look.
    fn look(&mut self, rings: &Rings<T>, at: u32, looks: &mut Looks) -> Option<Taken<T>>
        requires within { ArePasses rings.now self.old }
        requires few { length rings.now ≤ 64 }
        requires at { at < length self.old.items }
        ensures kept { self.new.core ≡ self.old.core }
        ensures value { LooksOnce T.mark T.label self.old.core self.old.items self.new.items looks.old looks.new at
            result }
    {
        let other = other_core(self.core, at);
        match self.claim(rings, at) {
            Claim::Took { place, block } => Some(Taken { at, place, block }),
            Claim::Empty { at: head } => {
                looks.note(other, Look::Empty { at: head });
                None
            }
            Claim::Raced { saw, found } => {
                looks.note(other, Look::Raced { saw, found });
                None
            }
        }
    }

    // Makes a claim by the pass of this number.
    fn claim(&mut self, rings: &Rings<T>, at: u32) -> Claim<T>
        requires within { ArePasses rings.now self.old }
        requires few { length rings.now ≤ 64 }
        requires at { at < length self.old.items }
        ensures kept { self.new.core ≡ self.old.core }
        ensures value { ClaimsAt T.mark T.label self.old.items self.new.items at result }
    {
        let ring = rings.ring(other_core(self.core, at));
        ring.claim(&mut self.items[at as usize])
    }
}

// A block that the pass of this number took.
#[derive(Drop)]
pub(crate) struct Taken<T> {
    pub(crate) at: u32,
    pub(crate) place: u32,
    pub(crate) block: T,
}

// Returns the other core of this number among the others.
pub(crate) fn other_core(core: u32, at: u32) -> u32
    requires few { at < 2 ^ 31 }
    ensures value { result ≡ other_core core at }
{
    if at < core { at } else { at + 1 }
}

// Returns the number of another core among the others.
fn number_of(core: u32, other: u32) -> u32
    requires other { core ≢ other }
    ensures value { result ≡ number_of core other }
{
    if other < core { other } else { other - 1 }
}
