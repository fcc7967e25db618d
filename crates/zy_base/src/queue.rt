//! Queues that contracts see as lists.
ghost use Rattle.std.specs.Prelude.{◌≡◌, [], ◌∷◌, ◌++◌, length, option_to_list, OnOk, OnErr, IfErr, IfNone};

use crate::outside::NoMemory;
use std::alloc::Global;
use std::collections::VecDeque;
use std::marker::Model;

/// A queue. Contracts see it as the list of its items, first come, first.
#[derive(Drop)]
pub struct Queue<T> {
    items: VecDeque<T>,
}

impl<T> Model for Queue<T> {
    ghost use Rattle.std.specs.Prelude.{List};

    ghost Value = { List T };

    ghost view = { λ queue. queue.items.items };
}

impl<T> Queue<T> {
    /// Makes the empty queue. Takes no memory.
    pub fn new(alloc: Global) -> Queue<T>
        ensures value { result ≡ [] }
    {
        Queue {
            items: VecDeque::new(alloc),
        }
    }

    /// Returns the number of items.
    pub fn len(&self) -> usize
        ensures value { result ≡ length self.now }
    {
        self.items.len()
    }

    /// Appends the item; if allocation fails it is handed back.
    pub fn push(&mut self, item: T) -> Result<(), (T, NoMemory)>
        ensures ok { OnOk result (self.new ≡ self.old ++ item ∷ []) }
        ensures err { OnErr result (self.new ≡ self.old) }
        ensures returned { IfErr result (λ e. e.0 ≡ item) }
    {
        match self.items.push_back(item) {
            Ok(()) => Ok(()),
            Err(e) => Err((e.value, NoMemory)),
        }
    }

    /// Takes the first item; `None` if and only if there is none. Takes no memory.
    pub fn next(&mut self) -> Option<T>
        ensures value { self.old ≡ option_to_list result ++ self.new }
        ensures none { IfNone result (self.old ≡ []) }
    {
        self.items.pop_front()
    }
}
