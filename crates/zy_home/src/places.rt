//! The places of a core's connections.
ghost use Rattle.std.specs.Prelude.{◌≡◌, ◌≢◌, ◌<◌, ◌≤◌, ℕ, Some, slice_get, IfOk, IfSome, IfNone};
ghost use Rattle.zy_home.specs.Own.{own_conns, share};

use std::alloc::Global;
use std::marker::Model;
use zy_base::NoMemory;
use zy_rx::FlowTable;

/// The connections of a core, each with its place among them by rising number. Contracts see the
/// core, the number of cores, and the number of all connections.
#[derive(Drop)]
pub struct Places {
    core: u32,
    cores: u32,
    count: u32,
    // By connection: its place, if it is the core's.
    table: Vec<Option<u32>>,
}

impl Model for Places {
    ghost use Rattle.zy_home.specs.Own.{Share, IsTable, own_conns};

    ghost Value = { Share };

    ghost view = { λ p. record { core = p.core; cores = p.cores; count = p.count } };

    ghost invariant = { λ p. IsTable (own_conns p.core p.cores p.count) p.table.items };
}

impl Places {
    // Makes the places of the connections below the count that are this core's of `cores` cores.
    pub(crate) fn new(alloc: Global, core: u32, cores: u32, count: u32) -> Result<Places, NoMemory>
        requires some { 1 ≤ cores }
        requires few { cores ≤ 64 }
        ensures ok { IfOk result (λ places. places ≡ share core cores count) }
    {
        let homes = FlowTable::new(cores);
        let mut table = match Vec::with_capacity(alloc, count as usize) {
            Ok(table) => table,
            Err(_) => return Err(NoMemory),
        };
        let mut next = 0;
        for conn in 0..count {
            if homes.home_of(conn) != core {
                table.push_reserved(None);
                continue;
            }
            table.push_reserved(Some(next));
            next += 1;
        }
        Ok(Places {
            core,
            cores,
            count,
            table,
        })
    }

    // Returns the number of the core.
    pub(crate) fn core(&self) -> u32
        ensures value { result ≡ self.now.core }
    {
        self.core
    }

    // Returns the place of a connection, if it is the core's.
    pub(crate) fn place_of(&self, conn: u32) -> Option<usize>
        ensures some { IfSome result (λ at.
            slice_get (own_conns self.now.core self.now.cores self.now.count) at ≡ Some conn) }
        ensures none { IfNone result ((at : ℕ)
            → slice_get (own_conns self.now.core self.now.cores self.now.count) at ≢ Some conn) }
    {
        match self.table.get(conn as usize) {
            Some(slot) => match slot {
                Some(place) => Some(*place as usize),
                None => None,
            },
            None => None,
        }
    }
}
