//! The parts of a run.

use crate::cores::Cores;
use crate::shared::Shared;
use mc_store::Root;
use zy_rx::Inlet;

/// A run: its cores by rising number, what they share, the inlets of their receive rings in the same
/// order, and the root of their store.
pub struct Running {
    pub cores: Cores,
    pub shared: Shared,
    pub inlets: Vec<Inlet>,
    pub root: Root,
}

impl Running {
    /// Drops the parts here, so that no crate above needs to prove it.
    pub fn abandon(self) {
        let Running {
            cores,
            shared,
            inlets,
            root,
        } = self;
        drop(cores);
        drop(shared);
        drop(inlets);
        drop(root);
    }
}
