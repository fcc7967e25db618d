//! Cores in a list.
ghost use Rattle.std.specs.Prelude.{◌≡◌, [], ◌∷◌, ◌++◌, OnOk, OnErr, IfErr, IfNone, option_to_list};

use crate::logical_core::Core;
use std::alloc::Global;
use std::marker::Model;
use zy_base::NoMemory;

/// Cores. Contracts see the list of them.
#[derive(Drop)]
pub struct Cores {
    items: Vec<Core>,
}

impl Model for Cores {
    ghost use Rattle.std.specs.Prelude.{List};
    ghost use Rattle.zy_core.specs.Core.{Cored};

    ghost Value = { List Cored };

    ghost view = { λ cores. cores.items.items };
}

impl Cores {
    /// Begins without a core. Takes no memory.
    pub fn new(alloc: Global) -> Cores
        ensures value { result ≡ [] }
    {
        Cores {
            items: Vec::new(alloc),
        }
    }

    /// Makes the cores of this list. Takes no memory.
    pub fn from_items(items: Vec<Core>) -> Cores
        ensures value { result ≡ items.items }
    {
        Cores { items }
    }

    /// Returns the list of the cores. Takes no memory.
    pub fn into_items(self) -> Vec<Core>
        ensures value { result.items ≡ self }
    {
        let Cores { items } = self;
        items
    }

    /// Appends the core; if allocation fails it is handed back.
    pub fn push(&mut self, core: Core) -> Result<(), (Core, NoMemory)>
        ensures ok { OnOk result (self.new ≡ self.old ++ core ∷ []) }
        ensures err { OnErr result (self.new ≡ self.old) }
        ensures returned { IfErr result (λ e. e.0 ≡ core) }
    {
        match self.items.push(core) {
            Ok(()) => Ok(()),
            Err(e) => Err((e.value, NoMemory)),
        }
    }

    /// Takes the first core; `None` if and only if none is left. Takes no memory.
    pub fn next(&mut self) -> Option<Core>
        ensures value { self.old ≡ option_to_list result ++ self.new }
        ensures none { IfNone result (self.old ≡ []) }
    {
        if self.items.is_empty() {
            return None;
        }
        Some(self.items.remove(0))
    }
}
