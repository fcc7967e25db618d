//! Making the connections.
ghost use Rattle.std.specs.Prelude.{◌≡◌, ◌↔◌, ℕ, ◌<◌, ◌≤◌, ◌+◌, [], ◌∷◌, true, false, length, IfOk, OnOk};
ghost use Rattle.std.specs.Prelude.{All};
ghost use Rattle.zy_table.specs.Member.{is_in};
ghost use Rattle.mc_store.specs.Pass.{rooted};
ghost use Rattle.zy_setup.specs.Make.{IsEmpty, IsConnection, AreOwns};

use crate::own_connections::OwnConnections;
use mc_store::{Root, StoreTable};
use std::alloc::Global;
use zy_base::NoMemory;
use zy_conn::{Block, EventInlet};
use zy_rx::FlowTable;

// Makes the block and the inlet of a connection that got no pass before, in a run with this number
// of cores.
fn connection(
    alloc: Global,
    store: &StoreTable,
    root: &mut Root,
    conn: u32,
    cores: u32,
) -> Result<(Block, EventInlet), NoMemory>
    requires cores { cores ≤ 64 }
    requires table { root.old.table ≡ store.now.id }
    requires within { conn < 4096 }
    requires fresh { is_in conn root.old.given ≡ false }
    ensures new { IfOk result (λ made. IsConnection store.now.id cores conn made.0 made.1) }
    ensures root { OnOk result (root.new ≡ rooted root.old.table (conn ∷ root.old.given) root.old.joined) }
{
    let pass = store.split(root, conn)?;
    match Block::among(alloc, conn, cores, pass) {
        Ok(made) => Ok(made),
        Err((pass, e)) => {
            drop(pass);
            Err(e)
        }
    }
}

// Adds the cores, without connections.
fn add_cores(alloc: Global, cores: u32, owns: &mut Vec<OwnConnections>) -> Result<(), NoMemory>
    requires none { owns.old.items ≡ [] }
    ensures count { OnOk result (length owns.new.items ≡ cores) }
    ensures empty { OnOk result (All IsEmpty owns.new.items) }
{
    for _core in 0..cores {
        owns.push(OwnConnections::new(alloc))?;
    }
    Ok(())
}

// Makes the connections below the count, each at its home core.
fn add_connections(
    alloc: Global,
    count: u32,
    cores: u32,
    store: &StoreTable,
    root: &mut Root,
    owns: &mut Vec<OwnConnections>,
) -> Result<(), NoMemory>
    requires few { count ≤ 4096 }
    requires some { 1 ≤ cores }
    requires cores { cores ≤ 64 }
    requires table { root.old.table ≡ store.now.id }
    requires none { root.old.given ≡ [] }
    requires count { length owns.old.items ≡ cores }
    requires empty { All IsEmpty owns.old.items }
    ensures owns { OnOk result (AreOwns store.now.id cores count owns.new.items) }
    ensures table { OnOk result (root.new.table ≡ root.old.table) }
    ensures joined { OnOk result (root.new.joined ≡ root.old.joined) }
    ensures given { OnOk result ((conn : ℕ) → (is_in conn root.new.given ≡ true) ↔ (conn < count)) }
{
    let homes = FlowTable::new(cores);
    for conn in 0..count {
        let core = homes.home_of(conn) as usize;
        let (block, inlet) = connection(alloc, store, root, conn, cores)?;
        owns[core].push(block, inlet)?;
    }
    Ok(())
}

/// Makes the connections below the count, each with its home core.
pub(crate) fn all_owns(
    alloc: Global,
    count: u32,
    cores: u32,
    store: &StoreTable,
    root: &mut Root,
) -> Result<Vec<OwnConnections>, NoMemory>
    requires few { count ≤ 4096 }
    requires some { 1 ≤ cores }
    requires cores { cores ≤ 64 }
    requires table { root.old.table ≡ store.now.id }
    requires none { root.old.given ≡ [] }
    ensures owns { IfOk result (λ owns. AreOwns store.now.id cores count owns.items) }
    ensures table { OnOk result (root.new.table ≡ root.old.table) }
    ensures joined { OnOk result (root.new.joined ≡ root.old.joined) }
    ensures given { OnOk result ((conn : ℕ) → (is_in conn root.new.given ≡ true) ↔ (conn < count)) }
{
    let mut owns = Vec::new(alloc);
    if let Err(e) = add_cores(alloc, cores, &mut owns) {
        drop(owns);
        return Err(e);
    }
    match add_connections(alloc, count, cores, store, root, &mut owns) {
        Ok(()) => Ok(owns),
        Err(e) => {
            drop(owns);
            Err(e)
        }
    }
}
