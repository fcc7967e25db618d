//! Taking a run apart when all is served.
ghost use Rattle.std.specs.Prelude.{◌≡◌, ◌≤◌, ◌⊎◌, ℕ, List, true, length, IfOk};
ghost use Rattle.std.specs.List.{AllByRecursion};
ghost use Rattle.zy_table.specs.Member.{is_in};
ghost use Rattle.zy_capture.specs.declared.record.Record.{Record};
ghost use Rattle.zy_capture.specs.Capture.{IsCapture, connection_limit};
ghost use Rattle.mc_store.specs.Joined.{is_joined};
ghost use Rattle.mc_store.specs.Root.{IsRootOf};
ghost use Rattle.zy_rx.specs.Feed.{sent_by};
ghost use Rattle.zy_core.specs.Cores.{EachSettled};
ghost use Rattle.zy_core.specs.Running.{IsRunning};
ghost use Rattle.zy_finish.specs.Over.{AreOver};
ghost use Rattle.zy_finish.specs.Received.{AllSent};
ghost use Rattle.zy_finish.specs.Finish.{HaveReceived, IsResultOfRun, IsHoldBy};
ghost use Rattle.zy_finish.specs.Rest.{AreMerged};

use crate::gathered::Gathered;
use crate::rest::rests_of;
use crate::taking::take_homes;
use mc_calls::Holds;
use mc_store::{Root, StoreTable};
use std::alloc::Global;
use zy_base::NoMemory;
use zy_capture::Outputs;
use zy_core::Running;
use zy_feed::Header;
use zy_home::Home;
use zy_journal::{Journal, merge, rising_histories_are_in_order};

/// What a run leaves: its journal, and the outputs of all connections' sessions.
#[derive(Drop)]
pub struct Finished {
    pub journal: Journal,
    pub outputs: Outputs,
}

/// Takes a run apart when all its cores are settled: joins the passes of all connections with the root,
/// closes the store, merges its histories with the holds, and cuts the outputs at the ends of the
/// sessions. The head is that of the capture whose records were sent to the cores.
///
/// `Err` means `NoMemory`; it is also the answer if a connection has more than 2^31 sessions.
pub fn finish(alloc: Global, header: Header, running: Running) -> Result<Finished, NoMemory>
    requires version { (header.version ≡ 1) ⊎ (header.version ≡ 2) }
    requires few { header.count ≤ connection_limit }
    requires run { IsRunning header.count running }
    requires settled { EachSettled running.cores }
    ensures finished { IfOk result (λ finished. (records : List Record)
        → IsCapture header.version header.count records → AllSent (sent_by running.inlets.items) records
        → IsResultOfRun running.shared.store.shards header.version header.count records finished) }
    ensures held { IfOk result (λ finished. AllByRecursion (IsHoldBy (length running.cores)) finished.journal.holds) }
{
    let Ok(homes) = Vec::with_capacity(alloc, running.inlets.len()) else {
        running.abandon();
        return Err(NoMemory);
    };
    let Running {
        cores,
        shared,
        inlets,
        root,
    } = running;
    let homes = take_homes(cores, inlets, homes);
    let (_, store) = shared.into_parts();
    let finished = finish_homes(alloc, header, homes, store, root)?;
    Ok(finished)
}

// Takes the homes of all cores, the store and its root apart.
fn finish_homes(
    alloc: Global,
    header: Header,
    homes: Vec<Home>,
    store: StoreTable,
    root: Root,
) -> Result<Finished, NoMemory>
    requires version { (header.version ≡ 1) ⊎ (header.version ≡ 2) }
    requires homes { AreOver store.id header.count homes.items }
    requires root { IsRootOf store.id header.count root }
    ensures finished { IfOk result (λ finished. (records : List Record)
        → IsCapture header.version header.count records → HaveReceived homes.items records
        → IsResultOfRun store.shards header.version header.count records finished) }
    ensures held { IfOk result (λ finished. AllByRecursion (IsHoldBy (length homes.items)) finished.journal.holds) }
{
    // The call tells the prover that the shards are the slots of the table, at most 256.
    let _shards = store.shards();
    let mut rests = match rests_of(alloc, homes) {
        Ok(rests) => rests,
        Err(e) => {
            drop(store);
            drop(root);
            return Err(e);
        }
    };
    let mut gathered = Gathered {
        root,
        holds: Vec::new(alloc),
        outputs: Outputs::new(alloc, header.version),
    };
    match gathered.take_all(alloc, &store, header.count, &mut rests) {
        Ok(()) => drop(rests),
        Err(e) => {
            drop(rests);
            drop(store);
            drop(gathered);
            return Err(e);
        }
    }
    let Gathered {
        root,
        holds,
        outputs,
    } = gathered;
    // The call tells the prover that the outputs are valid.
    let _version = outputs.version();
    match journal_of(store, root, Holds::from_vec(holds)) {
        Ok(journal) => Ok(Finished { journal, outputs }),
        Err(e) => {
            drop(outputs);
            Err(e)
        }
    }
}

// Makes the journal of a store whose passes were all joined: its merged histories, with the holds.
fn journal_of(store: StoreTable, root: Root, holds: Holds) -> Result<Journal, NoMemory>
    requires table { root.table ≡ store.id }
    requires all { (conn : ℕ) → is_in conn root.given ≡ true → is_joined conn root.joined ≡ true }
    ensures entries { IfOk result (λ journal. AreMerged store.shards root.joined journal.entries) }
    ensures holds { IfOk result (λ journal. journal.holds ≡ holds) }
{
    rising_histories_are_in_order();
    let histories = match store.close(root) {
        Ok(histories) => histories,
        Err(kept) => {
            drop(kept);
            drop(holds);
            return Err(NoMemory);
        }
    };
    match merge(histories, holds) {
        Ok(journal) => Ok(journal),
        Err(kept) => {
            drop(kept);
            Err(NoMemory)
        }
    }
}
