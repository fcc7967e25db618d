//! Making the cores of a run.
ghost use Rattle.std.specs.Prelude.{◌≡◌, ◌<◌, ◌≤◌, [], ◌∷◌, ◌++◌, length, IfOk, OnOk};
ghost use Rattle.zy_control.specs.Pass.{rooted};
ghost use Rattle.zy_core.specs.Cores.{identities, homes_of, AreCores};
ghost use Rattle.zy_core.specs.Running.{rings_in};
ghost use Rattle.zy_rx.specs.Feed.{rings_of};
ghost use Rattle.zy_setup.specs.New.{IsNewHome, AreNewPasses, AreUnusedRings, run_label};
ghost use Rattle.zy_setup.specs.Progress.{AreReady, AddsCore, HasMadeAll, passes_of};

use crate::core_parts::CoreParts;
use mc_store::{Root, StoreTable};
use std::alloc::Global;
use zy_base::NoMemory;
use zy_conn::Block;
use zy_control::ControlRoot;
use zy_core::{Core, Cores, Running, Shared};
use zy_home::Home;
use zy_rx::{Inlet, ring};
use zy_steal::{Passes, Victims};

// The slots of a receive ring.
const SLOTS: usize = 256;

/// Makes a core from each home, by rising number, with its passes on the rings of the others, a receive
/// ring and a pass on new control words. The root is that of the store.
pub(crate) fn make_cores(
    alloc: Global,
    parts: CoreParts,
    store: StoreTable,
    root: Root,
) -> Result<Running, NoMemory>
    requires ready { AreReady parts.rings store parts.homes.items parts.passes.items }

    // The cores, of these homes and passes.
    ensures cores { IfOk result (λ run. AreCores run.shared (identities run.cores)) }
    ensures homes { IfOk result (λ run. homes_of run.cores ≡ parts.homes.items) }
    ensures passes { IfOk result (λ run. passes_of run.cores ≡ parts.passes.items) }

    // What else the run has.
    ensures inlets { IfOk result (λ run. rings_of run.inlets.items ≡ rings_in (identities run.cores)) }
    ensures fresh { IfOk result (λ run. AreUnusedRings run.inlets.items) }
    ensures shared { IfOk result (λ run. (run.shared.rings ≡ parts.rings) × (run.shared.store ≡ store)) }
    ensures root { IfOk result (λ run. run.root ≡ root) }
{
    let CoreParts {
        homes,
        rings,
        passes,
    } = parts;
    match Shared::new(alloc, rings, store) {
        Ok((shared, control)) => run_on(alloc, shared, control, homes, passes, root),
        Err(given) => {
            drop(given);
            drop(homes);
            drop(passes);
            drop(root);
            Err(NoMemory)
        }
    }
}

// Makes the cores, which share these parts.
fn run_on(
    alloc: Global,
    shared: Shared,
    control: ControlRoot,
    homes: Vec<Home>,
    passes: Vec<Passes<Block>>,
    root: Root,
) -> Result<Running, NoMemory>
    requires control { control ≡ rooted shared.control.id 0 (length shared.rings) }
    requires ready { AreReady shared.rings shared.store homes.items passes.items }
    ensures cores { IfOk result (λ run. AreCores run.shared (identities run.cores)) }
    ensures homes { IfOk result (λ run. homes_of run.cores ≡ homes.items) }
    ensures passes { IfOk result (λ run. passes_of run.cores ≡ passes.items) }
    ensures inlets { IfOk result (λ run. rings_of run.inlets.items ≡ rings_in (identities run.cores)) }
    ensures fresh { IfOk result (λ run. AreUnusedRings run.inlets.items) }
    ensures shared { IfOk result (λ run. run.shared ≡ shared) }
    ensures root { IfOk result (λ run. run.root ≡ root) }
{
    let mut making = Making {
        root: control,
        cores: Cores::new(alloc),
        inlets: Vec::new(alloc),
    };
    if let Err(e) = making.add_all(alloc, &shared, homes, passes) {
        drop(making);
        drop(shared);
        drop(root);
        return Err(e);
    }
    let Making {
        root: _,
        cores,
        inlets,
    } = making;
    Ok(Running {
        cores,
        shared,
        inlets,
        root,
    })
}

// The cores that were made, and the ends of their receive rings; and the root that gives the next
// core its pass on the control words.
#[derive(Drop)]
struct Making {
    root: ControlRoot,
    cores: Cores,
    inlets: Vec<Inlet>,
}

impl Making {
    // Makes a core of each home.
    fn add_all(
        &mut self,
        alloc: Global,
        shared: &Shared,
        homes: Vec<Home>,
        passes: Vec<Passes<Block>>,
    ) -> Result<(), NoMemory>
        requires none { (self.old.cores ≡ []) × (self.old.inlets.items ≡ []) }
        requires root { self.old.root ≡ rooted shared.now.control.id 0 (length shared.now.rings) }
        requires ready { AreReady shared.now.rings shared.now.store homes.items passes.items }
        ensures ok { OnOk result (HasMadeAll shared.now homes.items passes.items self.new) }
    {
        let mut passes = passes;
        for home in homes {
            let own = passes.remove(0);
            self.add(alloc, shared, home, own)?;
        }
        Ok(())
    }

    // Makes the next core, of its home and its passes.
    fn add(
        &mut self,
        alloc: Global,
        shared: &Shared,
        home: Home,
        passes: Passes<Block>,
    ) -> Result<(), NoMemory>
        requires few { length shared.now.rings ≤ 64 }
        requires next { length self.old.inlets.items < length shared.now.rings }
        requires root { self.old.root ≡ rooted shared.now.control.id (length self.old.inlets.items)
            (length shared.now.rings) }
        requires home { IsNewHome shared.now.rings (run_label shared.now) (length shared.now.rings)
            (length self.old.inlets.items) home }
        requires passes { AreNewPasses shared.now.rings (run_label shared.now) (length self.old.inlets.items) passes }
        ensures ok { OnOk result (AddsCore shared.now home passes self.old self.new) }
    {
        let number = self.inlets.len() as u32;
        let count = shared.count() as u32;
        let (inlet, outlet) = match ring(alloc, SLOTS) {
            Ok(ends) => ends,
            Err(e) => {
                drop(home);
                drop(passes);
                return Err(e);
            }
        };
        let control = match shared.seat(&mut self.root) {
            Ok(pass) => pass,
            Err(e) => {
                drop(home);
                drop(passes);
                drop(inlet);
                drop(outlet);
                return Err(e);
            }
        };
        let core = Core::new(home, Victims::new(number, count), passes, outlet, control);
        self.keep(core, inlet)?;
        Ok(())
    }

    // Puts a core and its inlet after the others.
    fn keep(&mut self, core: Core, inlet: Inlet) -> Result<(), NoMemory>
        ensures cores { OnOk result (self.new.cores ≡ self.old.cores ++ core ∷ []) }
        ensures inlets { OnOk result (self.new.inlets.items ≡ self.old.inlets.items ++ inlet ∷ []) }
        ensures root { self.new.root ≡ self.old.root }
    {
        if let Err((core, e)) = self.cores.push(core) {
            drop(core);
            drop(inlet);
            return Err(e);
        }
        self.inlets.push(inlet)?;
        Ok(())
    }
}
