//! Which core a round begins with.
ghost use Rattle.std.specs.Prelude.{◌≡◌, ◌<◌, ◌≤◌};
ghost use Rattle.zy_rounds.specs.Order.{drawn_by, first_core, after_round, turn_of};

use rand_core::utils::NextWord;
use rand_pcg::Lcg64Xsh32;
use std::marker::Model;

/// The cores that rounds begin with. Contracts see the generator, if there is one.
#[derive(Drop)]
pub(crate) struct Draws {
    generator: Option<Lcg64Xsh32>,
}

impl Model for Draws {
    ghost use Rattle.std.specs.Prelude.{Option};
    ghost use Rattle.rand_pcg.specs.Lcg.{Lcg};

    ghost Value = { Option Lcg };

    ghost view = { λ d. d.generator };
}

impl Draws {
    // Makes the draws of an order, or no draws.
    pub(crate) fn new(order: Option<u32>) -> Draws
        ensures value { result ≡ drawn_by order }
    {
        match order {
            Some(number) => Draws {
                generator: Some(Lcg64Xsh32::new(u64::from(number), 54)),
            },
            None => Draws { generator: None },
        }
    }

    // Returns the one of `cores` cores with which the next round begins.
    pub(crate) fn next(&mut self, cores: u32) -> u32
        requires some { 0 < cores }
        ensures value { result ≡ first_core cores self.old }
        ensures ok { self.new ≡ after_round self.old }
        ensures limit { result < cores }
    {
        match &mut self.generator {
            Some(generator) => generator.next_word() % cores,
            None => 0,
        }
    }
}

// Returns the core that takes the turn with this number in a round which begins with this core.
pub(crate) fn turn_of(cores: u32, first: u32, turn: u32) -> u32
    requires within { (first < cores) × (turn < cores) }
    requires few { cores ≤ 64 }
    ensures value { result ≡ turn_of cores first turn }
    ensures limit { result < cores }
{
    (first + turn) % cores
}
