//! Blocks that are the numbers of their places.
ghost use Rattle.std.specs.Prelude.{◌≡◌, ◌+◌, ◌^◌, ◌<◌, ◌≤◌};
ghost use Rattle.zy_table.specs.Name.{no_name};
ghost use Rattle.zy_shuffle.specs.Pass.{HasAll, newly_held};

use crate::judging::no_memory;
use std::alloc::Global;
use std::marker::Brand;
use std::process::Abort;
use zy_shuffle::{HomePass, Marked, Ring};

/// A block that is the number of its place.
#[derive(Drop)]
pub(crate) struct Block {
    pub(crate) number: u32,
}

impl Marked for Block {
    ghost use Rattle.std.specs.Prelude.{ℕ};
    ghost use Rattle.zy_table.specs.Name.{no_name};

    ghost Mark = { ℕ };

    ghost mark = { λ b. b.number };

    ghost label = { λ b. no_name };
}

/// Makes a ring with `places` places, and its home.
pub(crate) fn new_ring<R: Abort>(
    rt: &R,
    alloc: Global,
    places: u32,
) -> (Ring<Block>, HomePass<Block>)
    requires few { places ≤ 4096 }
    ensures count { result.0.places ≡ places }
    ensures value { result.1 ≡ newly_held result.0.id no_name places }
    ensures hand { HasAll places result.1.hand }
{
    match Ring::<Block>::new::<Brand>(alloc, places) {
        Ok(made) => made,
        Err(_) => no_memory(rt),
    }
}

/// Publishes the places below this one, the last one first.
pub(crate) fn publish_below(ring: &Ring<Block>, home: &mut HomePass<Block>, places: u32)
    requires within { home.old.table ≡ ring.now.id }
    requires all { HasAll places home.old.hand }
    requires label { home.old.label ≡ no_name }
    requires few { home.old.count + places < 2 ^ 63 }
    ensures kept { (home.new.table ≡ home.old.table) × (home.new.out ≡ home.old.out) }
    ensures count { home.new.count ≡ home.old.count + places }
{
    for k in 0..places {
        let number = places - 1 - k;
        ring.publish(home, number, Block { number });
    }
}
