//! What all cores of a run share.
ghost use Rattle.std.specs.Prelude.{◌≡◌, ◌+◌, ◌<◌, false, length, IfOk, IfErr, IsOk};
ghost use Rattle.zy_control.specs.declared.view.Role.TheVariants.{Core};
ghost use Rattle.zy_control.specs.View.{untraced};
ghost use Rattle.zy_control.specs.Pass.{rooted, held};

use mc_store::StoreTable;
use std::alloc::Global;
use std::marker::Model;
use zy_base::NoMemory;
use zy_conn::Block;
use zy_control::{Control, ControlPass, ControlRoot};
use zy_steal::Rings;

/// What all cores of a run share: their rings, the store, and the control words.
pub struct Shared {
    pub(crate) rings: Rings<Block>,
    pub(crate) store: StoreTable,
    pub(crate) control: Control,
}

impl Model for Shared {
    ghost use Rattle.std.specs.Prelude.{◌≡◌, length};
    ghost use Rattle.zy_core.specs.Share.{Sharing, sharing};

    ghost Value = { Sharing };

    ghost view = { λ s. sharing s.rings s.store s.control };

    ghost invariant = { λ s. s.control.cores ≡ length s.rings };
}

impl Drop for Shared {
    fn drop(self) {
        let Self {
            rings,
            store,
            control,
        } = self;
        drop(rings);
        drop(store);
        drop(control);
    }
}

impl Shared {
    /// Puts rings and a store together with new control words, and makes the root of these. If
    /// allocation fails, rings and store are handed back.
    pub fn new(
        alloc: Global,
        rings: Rings<Block>,
        store: StoreTable,
    ) -> Result<(Shared, ControlRoot), (Rings<Block>, StoreTable)>
        ensures ok { IfOk result (λ made. (made.0.rings ≡ rings) × (made.0.store ≡ store)) }
        ensures root { IfOk result (λ made. made.1 ≡ rooted made.0.control.id 0 (length rings)) }
        ensures returned { IfErr result (λ e. (e.0 ≡ rings) × (e.1 ≡ store)) }
    {
        match Control::new(alloc, rings.count() as u64) {
            Ok((control, root)) => Ok((
                Shared {
                    rings,
                    store,
                    control,
                },
                root,
            )),
            Err(NoMemory) => Err((rings, store)),
        }
    }

    /// Makes a pass on the control words, of the core whose number is the count of passes that this
    /// root gave before. This takes no memory, and cannot fail.
    pub fn seat(&self, root: &mut ControlRoot) -> Result<ControlPass, NoMemory>
        requires table { root.old.table ≡ self.now.control.id }
        requires few { root.old.given < length self.now.rings }
        ensures succeeds { IsOk result }
        ensures value { IfOk result (λ pass. pass ≡ held root.old.table
            (Core root.old.given false false) root.old.cores untraced) }
        ensures ok { root.new ≡ rooted root.old.table (root.old.given + 1) root.old.cores }
    {
        self.control.seat(root)
    }

    /// Returns the number of cores.
    pub fn count(&self) -> u64
        ensures value { result ≡ length self.now.rings }
    {
        self.rings.count() as u64
    }

    /// Returns the control words.
    pub fn control(&self) -> &Control
        ensures value { result.now ≡ self.now.control }
    {
        &self.control
    }

    /// Returns the rings and the store. Takes no memory.
    pub fn into_parts(self) -> (Rings<Block>, StoreTable)
        ensures value { (result.0 ≡ self.rings) × (result.1 ≡ self.store) }
    {
        let Shared {
            rings,
            store,
            control: _,
        } = self;
        (rings, store)
    }
}
