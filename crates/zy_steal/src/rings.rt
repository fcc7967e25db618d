//! The rings of all cores.
ghost use Rattle.std.specs.Prelude.{◌≡◌, ◌<◌, [], ◌∷◌, ◌++◌, length, slice_get, Some, OnOk, OnErr, IfErr, IfNone, option_to_list};

use std::alloc::Global;
use std::marker::Model;
use zy_base::NoMemory;
use zy_shuffle::{Marked, Ring};

/// The rings of all cores. Contracts see it as the list of them, by the numbers of their cores.
pub struct Rings<T: Marked> {
    items: Vec<Ring<T>>,
}

impl<T: Marked> Model for Rings<T> {
    ghost use Rattle.std.specs.Prelude.{List};
    ghost use Rattle.zy_shuffle.specs.Pass.{Ringed};

    ghost Value = { List Ringed };

    ghost view = { λ r. r.items.items };
}

impl<T: Marked + Drop> Drop for Rings<T> {
    fn drop(self) {
        let Self { items } = self;
        drop(items);
    }
}

impl<T: Marked> Rings<T> {
    /// Begins without a ring. Takes no memory.
    pub fn new(alloc: Global) -> Rings<T>
        ensures value { result ≡ [] }
    {
        Rings {
            items: Vec::new(alloc),
        }
    }

    /// Appends the ring of the next core; if allocation fails, it is handed back.
    pub fn push(&mut self, ring: Ring<T>) -> Result<(), (Ring<T>, NoMemory)>
        ensures ok { OnOk result (self.new ≡ self.old ++ ring ∷ []) }
        ensures err { OnErr result (self.new ≡ self.old) }
        ensures returned { IfErr result (λ e. e.0 ≡ ring) }
    {
        match self.items.push(ring) {
            Ok(()) => Ok(()),
            Err(e) => Err((e.value, NoMemory)),
        }
    }

    /// Returns the ring of a core.
    pub fn ring(&self, core: u32) -> &Ring<T>
        requires within { core < length self.now }
        ensures value { slice_get self.now core ≡ Some result.now }
    {
        &self.items[core as usize]
    }

    /// Returns the number of rings.
    pub fn count(&self) -> usize
        ensures value { result ≡ length self.now }
    {
        self.items.len()
    }

    /// Takes the first ring; `None` if and only if there is none. Takes no memory.
    pub fn next(&mut self) -> Option<Ring<T>>
        ensures value { self.old ≡ option_to_list result ++ self.new }
        ensures none { IfNone result (self.old ≡ []) }
    {
        if self.items.is_empty() {
            return None;
        }
        Some(self.items.remove(0))
    }
}
