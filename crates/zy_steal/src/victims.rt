//! One core as a thief.
ghost use Rattle.std.specs.Prelude.{◌≡◌, ◌+◌, ◌%◌, ◌^◌, ◌<◌, ◌≤◌, length, IfSome, IfNone};
ghost use Rattle.zy_steal.specs.Order.{order_of, first_victims};
ghost use Rattle.zy_steal.specs.Steal.{ArePasses, TakesFrom, AllLooked, AllLookedOver, InTurn, IfStolen, IfNothing};
ghost use Rattle.zy_steal.specs.Steal.{IsOther, thief};
ghost use Rattle.zy_steal.specs.Range.{IsFirst};

use crate::looks::Looks;
use crate::order::Order;
use crate::passes::{Passes, Taken, other_core};
use crate::rings::Rings;
use std::marker::Model;
use zy_shuffle::Marked;

/// The answer of a steal call.
#[derive(Drop)]
pub enum Stolen<T> {
    /// A block of this victim, whose place is now in the hand of the pass on the victim's ring.
    Took { victim: u32, place: u32, block: T },
    /// A claim at every other core took nothing.
    Nothing { looks: Looks },
}

/// A block of another core, whose place is now in the hand of the pass on that core's ring.
#[derive(Drop)]
pub struct StolenBlock<T> {
    pub victim: u32,
    pub place: u32,
    pub block: T,
}

/// One core as a thief: its number, the number of cores, and the number of its calls so far.
/// Contracts see these numbers.
#[derive(Drop)]
pub struct Victims {
    core: u32,
    cores: u32,
    calls: u64,
}

impl Model for Victims {
    ghost use Rattle.std.specs.Prelude.{◌<◌, ◌≤◌};
    ghost use Rattle.zy_steal.specs.Steal.{Thief, thief};

    ghost Value = { Thief };

    ghost view = { λ v. thief v.core v.cores v.calls };

    ghost invariant = { λ v. (v.core < v.cores) × (v.cores ≤ 64) };
}

impl Victims {
    /// Makes core `core` of `cores`, before its first call.
    pub fn new(core: u32, cores: u32) -> Victims
        requires within { core < cores }
        requires few { cores ≤ 64 }
        ensures value { result ≡ thief core cores 0 }
    {
        Victims {
            core,
            cores,
            calls: 0,
        }
    }

    /// Returns the cores that the next steal call looks at, in this order.
    pub fn next_order(&self) -> Order
        ensures value { result ≡ order_of self.now.cores self.now.core self.now.calls }
    {
        let mut order = Order::new();
        let others = self.cores - 1;
        for turn in 0..others {
            let offset = (self.calls % others as u64) as u32 + turn;
            order.push((self.core + 1 + offset % others) % self.cores);
        }
        order
    }

    /// Makes a claim at each other core, in that order, until one takes a block.
    pub fn steal<T: Marked>(&mut self, rings: &Rings<T>, passes: &mut Passes<T>) -> Stolen<T>
        requires within { ArePasses rings.now passes.old }
        requires core { passes.old.core ≡ self.old.core }
        requires cores { length rings.now ≡ self.old.cores }
        ensures ok { self.new ≡ record self.old { calls = (self.old.calls + 1) % 2 ^ 64 } }
        ensures kept { passes.new.core ≡ passes.old.core }
        ensures within { ArePasses rings.now passes.new }

        // Took: a block of another core, and only the cores before it in the order were looked at.
        ensures other { IfStolen result (λ c _ _. IsOther self.old.core self.old.cores c) }
        ensures taken { IfStolen result (TakesFrom T.mark T.label passes.old passes.new) }
        ensures order { IfStolen result (λ c _ _. InTurn self.old passes.old passes.new c) }

        // Nothing: a claim at each other core took nothing, and each look says why.
        ensures none { IfNothing result (AllLooked passes.old passes.new) }
    {
        let mut looks = Looks::new();
        match self.steal_into(rings, passes, &mut looks) {
            Some(
                StolenBlock {
                    victim,
                    place,
                    block,
                },
            ) => Stolen::Took {
                victim,
                place,
                block,
            },
            None => Stolen::Nothing { looks },
        }
    }

    /// Steals as `steal`, over a table of looks that the caller owns: this call's looks replace
    /// those at the same cores. So no table is cleared or moved.
    pub fn steal_into<T: Marked>(
        &mut self,
        rings: &Rings<T>,
        passes: &mut Passes<T>,
        looks: &mut Looks,
    ) -> Option<StolenBlock<T>>
        requires within { ArePasses rings.now passes.old }
        requires core { passes.old.core ≡ self.old.core }
        requires cores { length rings.now ≡ self.old.cores }
        ensures ok { self.new ≡ record self.old { calls = (self.old.calls + 1) % 2 ^ 64 } }
        ensures kept { passes.new.core ≡ passes.old.core }
        ensures within { ArePasses rings.now passes.new }

        // Some: a block of another core, and only the cores before it in the order were looked at.
        ensures other { IfSome result (λ p. IsOther self.old.core self.old.cores p.victim) }
        ensures taken { IfSome result (λ p. TakesFrom T.mark T.label passes.old passes.new p.victim p.place p.block) }
        ensures order { IfSome result (λ p. InTurn self.old passes.old passes.new p.victim) }

        // None: a claim at each other core took nothing, and each look says why.
        ensures none { IfNone result (AllLookedOver passes.old passes.new looks.old looks.new) }
    {
        let start = self.first();
        self.calls = self.calls.wrapping_add(1);
        let Some(taken) = passes.turn(rings, start, looks) else {
            return None;
        };
        let Taken { at, place, block } = taken;
        Some(StolenBlock {
            victim: other_core(self.core, at),
            place,
            block,
        })
    }

    // Returns the number, among the other cores, of the first core that the next call looks at.
    fn first(&self) -> u32
        ensures value { IsFirst self.now result }
    {
        let others = self.cores - 1;
        if others == 0 {
            return 0;
        }
        (self.core + (self.calls % others as u64) as u32) % others
    }
}
