//! Making the cores' parts, core by core.
ghost use Rattle.std.specs.Prelude.{◌≡◌, ◌<◌, ◌≤◌, ◌+◌, [], ◌∷◌, ◌++◌, length, IfOk, OnOk};
ghost use Rattle.zy_home.specs.Home.{HomeStands, IsMade};
ghost use Rattle.zy_home.specs.Parts.{AreParts};
ghost use Rattle.zy_setup.specs.Make.{AreOwns, AreMade, IsOwnOf, no_passes};

use crate::making_rings::{give_passes, ring_of};
use crate::own_connections::OwnConnections;
use mc_store::StoreTable;
use std::alloc::Global;
use zy_base::NoMemory;
use zy_conn::Block;
use zy_home::{Home, HomeParts};
use zy_shuffle::{HomePass, Ring};
use zy_steal::{Passes, Rings};

/// The homes and the rings of the first cores, and the passes of all cores on these rings.
#[derive(Drop)]
pub(crate) struct CoreParts {
    pub(crate) homes: Vec<Home>,
    pub(crate) rings: Rings<Block>,
    pub(crate) passes: Vec<Passes<Block>>,
}

impl CoreParts {
    /// Makes the parts of all cores, with these connections.
    pub(crate) fn of(
        alloc: Global,
        store: &StoreTable,
        cores: u32,
        count: u32,
        owns: Vec<OwnConnections>,
    ) -> Result<CoreParts, NoMemory>
        requires cores { cores ≤ 64 }
        requires few { count ≤ 4096 }
        requires owns { AreOwns store.now.id cores count owns.items }
        ensures made { IfOk result (AreMade store.now.id cores count) }
        ensures all { IfOk result (λ made. length made.homes.items ≡ cores) }
    {
        let mut made = CoreParts::new(alloc);
        if let Err(e) = made.add_passes(alloc, cores) {
            drop(made);
            drop(owns);
            return Err(e);
        }
        match made.add_all(alloc, store, cores, count, owns) {
            Ok(()) => Ok(made),
            Err(e) => {
                drop(made);
                Err(e)
            }
        }
    }

    // Begins without a home and without passes. Takes no memory.
    fn new(alloc: Global) -> CoreParts
        ensures homes { result.homes.items ≡ [] }
        ensures rings { result.rings ≡ [] }
        ensures passes { result.passes.items ≡ [] }
    {
        CoreParts {
            homes: Vec::new(alloc),
            rings: Rings::new(alloc),
            passes: Vec::new(alloc),
        }
    }

    // Adds a list of passes without a pass for each core.
    fn add_passes(&mut self, alloc: Global, cores: u32) -> Result<(), NoMemory>
        requires none { self.old.passes.items ≡ [] }
        ensures homes { self.new.homes ≡ self.old.homes }
        ensures rings { self.new.rings ≡ self.old.rings }
        ensures passes { OnOk result (self.new.passes.items ≡ no_passes cores) }
    {
        for core in 0..cores {
            self.passes.push(Passes::new(alloc, core))?;
        }
        Ok(())
    }

    // Makes the ring, the home and the passes of each core.
    fn add_all(
        &mut self,
        alloc: Global,
        store: &StoreTable,
        cores: u32,
        count: u32,
        owns: Vec<OwnConnections>,
    ) -> Result<(), NoMemory>
        requires cores { cores ≤ 64 }
        requires few { count ≤ 4096 }
        requires none { self.old.homes.items ≡ [] × self.old.rings ≡ [] }
        requires passes { self.old.passes.items ≡ no_passes cores }
        requires owns { AreOwns store.now.id cores count owns.items }
        ensures made { OnOk result (AreMade store.now.id cores count self.new) }
        ensures all { OnOk result (length self.new.homes.items ≡ cores) }
    {
        for own in owns {
            self.add(alloc, store, cores, count, own)?;
        }
        Ok(())
    }

    // Makes the ring and the home of the next core, and the passes of the others on this ring.
    fn add(
        &mut self,
        alloc: Global,
        store: &StoreTable,
        cores: u32,
        count: u32,
        own: OwnConnections,
    ) -> Result<(), NoMemory>
        requires cores { cores ≤ 64 }
        requires few { count ≤ 4096 }
        requires within { length self.old.homes.items < cores }
        requires made { AreMade store.now.id cores count self.old }
        requires own { IsOwnOf store.now.id (length self.old.homes.items) cores count own }
        ensures made { OnOk result (AreMade store.now.id cores count self.new) }
        ensures one { OnOk result (length self.new.homes.items ≡ length self.old.homes.items + 1) }
    {
        let core = self.homes.len() as u32;
        let (ring, mut pass) = match ring_of(alloc, store, cores, own.places) {
            Ok(made) => made,
            Err(e) => {
                drop(own);
                return Err(e);
            }
        };
        // The call tells the prover that the places of a ring are the slots of its table.
        let _places = ring.places();
        if let Err(e) = give_passes(&ring, &mut pass, core, &mut self.passes) {
            drop(ring);
            drop(pass);
            drop(own);
            return Err(e);
        }
        let home = match home_of(alloc, core, cores, count, pass, own) {
            Ok(home) => home,
            Err(e) => {
                drop(ring);
                return Err(e);
            }
        };
        self.keep(ring, home)?;
        Ok(())
    }

    // Puts a ring and its home after the others.
    fn keep(&mut self, ring: Ring<Block>, home: Home) -> Result<(), NoMemory>
        ensures homes { OnOk result (self.new.homes.items ≡ self.old.homes.items ++ home ∷ []) }
        ensures rings { OnOk result (self.new.rings ≡ self.old.rings ++ ring ∷ []) }
        ensures passes { self.new.passes ≡ self.old.passes }
    {
        if let Err((ring, e)) = self.rings.push(ring) {
            drop(ring);
            drop(home);
            return Err(e);
        }
        self.homes.push(home)?;
        Ok(())
    }
}

// Makes the home of a core on the ring of this pass, with its connections.
fn home_of(
    alloc: Global,
    core: u32,
    cores: u32,
    count: u32,
    pass: HomePass<Block>,
    own: OwnConnections,
) -> Result<Home, NoMemory>
    requires core { core < cores }
    requires cores { cores ≤ 64 }
    requires parts { AreParts core cores count (record { pass = pass; blocks = own.blocks; inlets = own.inlets }) }
    ensures ok { IfOk result (λ home. IsMade core cores count pass own.blocks home) }
    ensures stands { IfOk result (λ home. HomeStands home []) }
{
    let OwnConnections {
        places: _,
        blocks,
        inlets,
    } = own;
    let parts = HomeParts {
        pass,
        blocks,
        inlets,
    };
    match Home::new(alloc, core, cores, count, parts) {
        Ok(home) => Ok(home),
        Err((parts, e)) => {
            drop(parts);
            Err(e)
        }
    }
}
