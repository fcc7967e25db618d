//! What is gathered from connections.
ghost use Rattle.std.specs.Prelude.{◌≡◌, ◌<◌, ◌≤◌, ◌++◌, length, OnOk};
ghost use Rattle.zy_capture.specs.Capture.{connection_limit};
ghost use Rattle.zy_finish.specs.Rest.{IsThere, Gathers, HasGathered};

use crate::rest::{Last, Rest};
use crate::sessions::add_sessions;
use mc_calls::{Hold, Holds};
use mc_store::{Root, StoreTable};
use std::alloc::Global;
use zy_base::NoMemory;
use zy_capture::Outputs;
use zy_rx::FlowTable;

/// The root with the passes that it joined, and the holds and outputs of connections.
#[derive(Drop)]
pub(crate) struct Gathered {
    pub(crate) root: Root,
    pub(crate) holds: Vec<Hold>,
    pub(crate) outputs: Outputs,
}

impl Gathered {
    // Gathers the block and the output of the next connection.
    fn take(
        &mut self,
        alloc: Global,
        store: &StoreTable,
        conn: u32,
        last: Last,
    ) -> Result<(), NoMemory>
        requires root { self.old.root.table ≡ store.now.id }
        requires block { last.block.work.table ≡ store.now.id }
        requires next { conn ≡ length self.old.outputs.sessions }
        requires few { conn < connection_limit }
        ensures ok { OnOk result (Gathers last self.old self.new) }
    {
        let Last {
            block,
            output,
            ends,
        } = last;
        let (pass, holds) = block.into_parts();
        store.join(&mut self.root, pass);
        if let Err(e) = self.add_holds(holds) {
            drop(output);
            drop(ends);
            return Err(e);
        }
        let added = add_sessions(alloc, &mut self.outputs, conn, output, &ends);
        drop(ends);
        added
    }

    // Appends the holds of a connection.
    fn add_holds(&mut self, holds: Holds) -> Result<(), NoMemory>
        ensures ok { OnOk result (self.new.holds.items ≡ self.old.holds.items ++ holds) }
        ensures root { self.new.root ≡ self.old.root }
        ensures outputs { self.new.outputs ≡ self.old.outputs }
    {
        let added = self.holds.extend_from_slice(holds.items());
        drop(holds);
        added?;
        Ok(())
    }

    /// Gathers the blocks and the outputs of all connections, by rising number, each from its home.
    pub(crate) fn take_all(
        &mut self,
        alloc: Global,
        store: &StoreTable,
        count: u32,
        rests: &mut Vec<Rest>,
    ) -> Result<(), NoMemory>
        requires some { 1 ≤ length rests.old.items }
        requires cores { length rests.old.items ≤ 64 }
        requires few { count ≤ connection_limit }
        requires root { self.old.root.table ≡ store.now.id }
        requires there { (conn : _) → conn < count → IsThere store.now.id rests.old.items conn }
        requires none { HasGathered self.old.outputs.version rests.old.items 0 self.old }
        ensures ok { OnOk result (HasGathered self.old.outputs.version rests.old.items count self.new) }
        ensures table { OnOk result (self.new.root.table ≡ self.old.root.table) }
        ensures given { OnOk result (self.new.root.given ≡ self.old.root.given) }
    {
        let homes = FlowTable::new(rests.len() as u32);
        for conn in 0..count {
            let core = homes.home_of(conn) as usize;
            let last = rests[core].next();
            self.take(alloc, store, conn, last)?;
        }
        Ok(())
    }
}
