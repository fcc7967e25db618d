//! The connections of a core, while they are made.
ghost use Rattle.std.specs.Prelude.{◌≡◌, ◌<◌, ◌+◌, [], ◌∷◌, ◌++◌, OnOk};
ghost use Rattle.zy_setup.specs.Make.{IsEmpty, HasOneMore};

use std::alloc::Global;
use zy_base::NoMemory;
use zy_conn::{Block, EventInlet};
use zy_home::{Blocks, Inlets};

/// The blocks of a core's connections by rising number, with their inlets, and their number.
#[derive(Drop)]
pub(crate) struct OwnConnections {
    pub(crate) places: u32,
    pub(crate) blocks: Blocks,
    pub(crate) inlets: Inlets,
}

impl OwnConnections {
    /// Begins without a connection. Takes no memory.
    pub(crate) fn new(alloc: Global) -> OwnConnections
        ensures value { IsEmpty result }
    {
        OwnConnections {
            places: 0,
            blocks: Blocks::new(alloc),
            inlets: Inlets::new(alloc),
        }
    }

    /// Appends a connection.
    pub(crate) fn push(&mut self, block: Block, inlet: EventInlet) -> Result<(), NoMemory>
        requires few { self.old.places < 4096 }
        ensures ok { OnOk result (HasOneMore block inlet self.old self.new) }
    {
        if let Err((block, e)) = self.blocks.push(block) {
            drop(block);
            drop(inlet);
            return Err(e);
        }
        if let Err((inlet, e)) = self.inlets.push(inlet) {
            drop(inlet);
            return Err(e);
        }
        self.places += 1;
        Ok(())
    }
}
