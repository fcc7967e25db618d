//! Lists that contracts see as lists.
ghost use Rattle.std.specs.Prelude.{◌≡◌, [], ◌∷◌, ◌++◌, IfOk, OnOk, OnErr, IfErr};
ghost use Rattle.std.specs.Cmp.Lexicographic.{pointwise, lists_per, lists_equiv};

use crate::outside::NoMemory;
use std::alloc::Global;
use std::marker::Model;

/// A list. Contracts see the list of its items.
#[derive(Drop)]
pub struct Items<T> {
    items: Vec<T>,
}

impl<T> Model for Items<T> {
    ghost use Rattle.std.specs.Prelude.{List};

    ghost Value = { List T };

    ghost view = { λ list. list.items.items };
}

impl<T> Items<T> {
    /// Makes the empty list. Takes no memory.
    pub fn new(alloc: Global) -> Items<T>
        ensures value { result ≡ [] }
    {
        Items {
            items: Vec::new(alloc),
        }
    }

    /// Makes the empty list, with room for this many items.
    pub fn with_capacity(alloc: Global, capacity: usize) -> Result<Items<T>, NoMemory>
        ensures value { IfOk result (λ list. list ≡ []) }
    {
        match Vec::with_capacity(alloc, capacity) {
            Ok(items) => Ok(Items { items }),
            Err(_) => Err(NoMemory),
        }
    }

    /// Makes the list of a vector, which is moved. Takes no memory.
    pub fn from_vec(items: Vec<T>) -> Items<T>
        ensures value { result ≡ items.items }
    {
        Items { items }
    }

    /// Appends the item; if allocation fails it is handed back.
    pub fn push(&mut self, item: T) -> Result<(), (T, NoMemory)>
        ensures ok { OnOk result (self.new ≡ self.old ++ item ∷ []) }
        ensures err { OnErr result (self.new ≡ self.old) }
        ensures returned { IfErr result (λ e. e.0 ≡ item) }
    {
        match self.items.push(item) {
            Ok(()) => Ok(()),
            Err(e) => Err((e.value, NoMemory)),
        }
    }

    /// Returns the list.
    pub fn items(&self) -> &[T]
        ensures value { result.now ≡ self.now }
    {
        self.items.as_slice()
    }

    /// Returns the vector of the list. Takes no memory.
    pub fn into_vec(self) -> Vec<T>
        ensures value { result.items ≡ self }
    {
        self.items
    }
}

impl<T: PartialEq> PartialEq for Items<T> {
    ghost eq = { pointwise T.eq };

    ghost laws = { lists_per T.laws };

    fn eq(&self, other: &Items<T>) -> bool {
        self.items == other.items
    }
}

impl<T: Eq> Eq for Items<T> {
    ghost laws = { lists_equiv T.Eq.laws };
}
