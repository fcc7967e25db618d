//! Making a ring, and giving the passes on it.
ghost use Rattle.std.specs.Prelude.{◌≡◌, ◌≤◌, ◌<◌, length, IfOk, OnOk};
ghost use Rattle.zy_conn.specs.Block.{label_of};
ghost use Rattle.zy_shuffle.specs.Pass.{HasAll, newly_held, newly_given};
ghost use Rattle.zy_setup.specs.Make.{GivesPass, with_further_pass};

use mc_store::StoreTable;
use std::alloc::Global;
use std::marker::Brand;
use zy_base::NoMemory;
use zy_conn::Block;
use zy_shuffle::{HomePass, Label, Ring};
use zy_steal::Passes;

/// Makes a ring with `places` places, all in the home's hand, whose label is that of the blocks of
/// the store and this number of cores.
pub(crate) fn ring_of(
    alloc: Global,
    store: &StoreTable,
    cores: u32,
    places: u32,
) -> Result<(Ring<Block>, HomePass<Block>), NoMemory>
    requires few { places ≤ 4096 }
    ensures places { IfOk result (λ made. made.0.places ≡ places) }
    ensures pass { IfOk result (λ made. made.1 ≡ newly_held made.0.id (label_of store.now.id cores) places) }
    ensures hand { IfOk result (λ made. HasAll places made.1.hand) }
{
    ring_as::<Brand>(alloc, store, cores, places)
}

// Makes such a ring, with a marker type that has this label.
fn ring_as<L: Label>(
    alloc: Global,
    _store: &StoreTable,
    _cores: u32,
    places: u32,
) -> Result<(Ring<Block>, HomePass<Block>), NoMemory>
    requires picked { label_of _store.now.id _cores ≡ L.label }
    requires few { places ≤ 4096 }
    ensures places { IfOk result (λ made. made.0.places ≡ places) }
    ensures pass { IfOk result (λ made. made.1 ≡ newly_held made.0.id (label_of _store.now.id _cores) places) }
    ensures hand { IfOk result (λ made. HasAll places made.1.hand) }
{
    Ring::new::<L>(alloc, places)
}

/// Gives each other core a pass on the ring of this one.
pub(crate) fn give_passes(
    ring: &Ring<Block>,
    home: &mut HomePass<Block>,
    core: u32,
    passes: &mut [Passes<Block>],
) -> Result<(), NoMemory>
    requires table { home.old.table ≡ ring.now.id }
    ensures home { home.new ≡ record home.old { out = home.new.out } }
    ensures gives { OnOk result (GivesPass core (newly_given home.old) passes.old passes.new) }
{
    for other in 0..passes.len() {
        give_pass(ring, home, core as usize, other, &mut passes[other])?;
    }
    Ok(())
}

// Gives a core a pass on the ring of this one, if it is another core.
fn give_pass(
    ring: &Ring<Block>,
    home: &mut HomePass<Block>,
    core: usize,
    other: usize,
    passes: &mut Passes<Block>,
) -> Result<(), NoMemory>
    requires table { home.old.table ≡ ring.now.id }
    ensures home { home.new ≡ record home.old { out = home.new.out } }
    ensures gives { OnOk result (passes.new ≡ with_further_pass core (newly_given home.old) other passes.old) }
{
    if other == core {
        return Ok(());
    }
    let pass = ring.split(home)?;
    match passes.push(pass) {
        Ok(()) => Ok(()),
        Err((pass, e)) => {
            drop(pass);
            Err(e)
        }
    }
}
