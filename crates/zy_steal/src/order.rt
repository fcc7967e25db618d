//! The order in which a core looks at the other cores.
ghost use Rattle.std.specs.Prelude.{◌≡◌, ◌+◌, ◌<◌, ◌≤◌, [], ◌∷◌, ◌++◌, length};

use arrayvec::ArrayVec;
use std::marker::Model;

/// The cores that one steal call looks at, in this order. Contracts see it as the list of their numbers. It takes no
/// memory.
#[derive(Drop)]
pub struct Order {
    cores: ArrayVec<u32, 64>,
}

impl Model for Order {
    ghost use Rattle.std.specs.Prelude.{List, ℕ};

    ghost Value = { List ℕ };

    ghost view = { λ o. o.cores.items };
}

impl Order {
    // Begins without a core.
    pub(crate) fn new() -> Order
        ensures value { result ≡ [] }
    {
        Order {
            cores: ArrayVec::new(),
        }
    }

    // Appends a core.
    pub(crate) fn push(&mut self, core: u32)
        requires few { length self.old < 64 }
        ensures value { self.new ≡ self.old ++ core ∷ [] }
    {
        self.cores.push(core);
    }

    /// Returns the cores.
    pub fn items(&self) -> &[u32]
        ensures value { result.now ≡ self.now }
    {
        self.cores.as_slice()
    }
}
