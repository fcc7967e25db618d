//! Making a run.
ghost use Rattle.std.specs.Prelude.{◌≡◌, ◌↔◌, ℕ, ◌<◌, ◌≤◌, [], true, length, IfOk, OnOk};
ghost use Rattle.zy_table.specs.Member.{is_in};
ghost use Rattle.zy_rx.specs.Feed.{rings_of};
ghost use Rattle.zy_core.specs.Cores.{identities, AreInlets};
ghost use Rattle.zy_core.specs.Running.{IsRunning};
ghost use Rattle.zy_setup.specs.New.{AreNewCores, AreUnusedRings};
ghost use Rattle.zy_setup.specs.Make.{AreMade};

use crate::connections::all_owns;
use crate::core_parts::CoreParts;
use crate::making::make_cores;
use mc_store::{Root, StoreTable};
use std::alloc::Global;
use zy_base::NoMemory;
use zy_core::Running;

/// Makes a run of `count` connections, `cores` cores and `shards` shards: a store; a pass and a block for
/// each connection; and for each core a ring with a place for each of its connections, its home, its
/// passes on the other rings, a receive ring of 256 slots, and a pass on new control words. All rings
/// have the label of this store and this number of cores.
///
/// `Err` means `NoMemory`.
pub fn make_run(alloc: Global, count: u32, cores: u32, shards: u32) -> Result<Running, NoMemory>
    requires connections { count ≤ 4096 }
    requires some_cores { 1 ≤ cores }
    requires few_cores { cores ≤ 64 }
    requires some_shards { 1 ≤ shards }
    requires few_shards { shards ≤ 256 }

    // The run, as driving and finishing require it.
    ensures run { IfOk result (IsRunning count) }
    ensures inlets { IfOk result (λ run. AreInlets (rings_of run.inlets.items) (identities run.cores)) }
    ensures count { IfOk result (λ run. length run.shared.rings ≡ cores) }
    ensures ends { IfOk result (λ run. length run.inlets.items ≡ cores) }
    ensures shards { IfOk result (λ run. run.shared.store.shards ≡ shards) }

    // Nothing was received, published or sent.
    ensures new { IfOk result (λ run. AreNewCores run.shared count run.cores) }
    ensures fresh { IfOk result (λ run. AreUnusedRings run.inlets.items) }
{
    let (store, mut root) = StoreTable::new(alloc, shards)?;
    let parts = match parts_of(alloc, count, cores, &store, &mut root) {
        Ok(parts) => parts,
        Err(e) => {
            drop(store);
            drop(root);
            return Err(e);
        }
    };
    let made = make_cores(alloc, parts, store, root)?;
    Ok(made)
}

// Makes the homes, the rings, and the passes on these, with the connections whose passes the root
// gives.
fn parts_of(
    alloc: Global,
    count: u32,
    cores: u32,
    store: &StoreTable,
    root: &mut Root,
) -> Result<CoreParts, NoMemory>
    requires connections { count ≤ 4096 }
    requires some { 1 ≤ cores }
    requires few { cores ≤ 64 }
    requires table { root.old.table ≡ store.now.id }
    requires none { root.old.given ≡ [] }
    ensures made { IfOk result (AreMade store.now.id cores count) }
    ensures all { IfOk result (λ made. length made.homes.items ≡ cores) }
    ensures table { OnOk result (root.new.table ≡ root.old.table) }
    ensures joined { OnOk result (root.new.joined ≡ root.old.joined) }
    ensures given { OnOk result ((conn : ℕ) → (is_in conn root.new.given ≡ true) ↔ (conn < count)) }
{
    let owns = all_owns(alloc, count, cores, store, root)?;
    CoreParts::of(alloc, store, cores, count, owns)
}
