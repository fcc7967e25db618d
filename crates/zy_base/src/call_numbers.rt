//! The calls at which a source or a sink in memory fails.
ghost use Rattle.std.specs.Prelude.{◌≡◌, ◌<◌, [], ◌∷◌, ◌++◌, None, IfSome, OnOk, OnErr, IfErr};
ghost use Rattle.std.specs.List.{last_or};
ghost use Rattle.std.specs.List.Sorted.{IsStrictlyIncreasing};

use crate::outside::NoMemory;
use std::alloc::Global;
use std::marker::Model;

/// Numbers of calls, from 0, in rising order. Contracts see it as the list of the numbers.
#[derive(Drop)]
pub struct CallNumbers {
    items: Vec<u64>,
}

impl Model for CallNumbers {
    ghost use Rattle.std.specs.Prelude.{ℕ, List};
    ghost use Rattle.std.specs.List.Sorted.{IsStrictlyIncreasing};

    ghost Value = { List ℕ };

    ghost view = { λ list. list.items.items };

    ghost invariant = { λ list. IsStrictlyIncreasing list.items.items };
}

impl CallNumbers {
    /// Makes the list without a number. Takes no memory.
    pub fn new(alloc: Global) -> CallNumbers
        ensures value { result ≡ [] }
    {
        CallNumbers {
            items: Vec::new(alloc),
        }
    }

    /// Appends a number above the last one; if allocation fails it is handed back.
    #[tactic(auto, using(crate::proofs::RisingLemmas::increasing_push))]
    pub fn push(&mut self, number: u64) -> Result<(), (u64, NoMemory)>
        requires above { IfSome (last_or None self.old) (λ last. last < number) }
        ensures ok { OnOk result (self.new ≡ self.old ++ number ∷ []) }
        ensures err { OnErr result (self.new ≡ self.old) }
        ensures returned { IfErr result (λ e. e.0 ≡ number) }
    {
        match self.items.push(number) {
            Ok(()) => Ok(()),
            Err(e) => Err((e.value, NoMemory)),
        }
    }

    /// Returns the numbers.
    pub fn items(&self) -> &[u64]
        ensures value { result.now ≡ self.now }
        ensures rising { IsStrictlyIncreasing result.now }
    {
        self.items.as_slice()
    }
}
