//! The histories of all shards.
ghost use Rattle.std.specs.Prelude.{◌≡◌, ◌<◌, [], ◌∷◌, ◌++◌, length, ◌≤◌, OnOk, OnErr, IfErr};
ghost use Rattle.zy_base.specs.Limits.{shard_limit};
ghost use Rattle.mc_calls.specs.Order.{AreAt, AreByShard, history_of};

use crate::history::History;
use std::alloc::Global;
use std::marker::Model;
use zy_base::NoMemory;

/// The history of each shard, at most 256. Contracts see it as the list of these histories.
/// Every entry is at the shard whose number is its list's index.
#[derive(Drop)]
pub struct Histories {
    histories: Vec<History>,
}

impl Model for Histories {
    ghost use Rattle.std.specs.Prelude.{List, ◌≤◌, length};
    ghost use Rattle.mc_calls.specs.declared.entry.Entry.{Entry};

    ghost Value = { List (List Entry) };

    ghost use Rattle.zy_base.specs.Limits.{shard_limit};
    ghost use Rattle.mc_calls.specs.Order.{AreByShard};

    ghost view = { λ h. h.histories.items };

    ghost invariant = { λ h. (length h.histories.items ≤ shard_limit) × AreByShard h.histories.items };
}

impl Histories {
    /// Begins without a history. Takes no memory.
    pub fn new(alloc: Global) -> Histories
        ensures value { result ≡ [] }
    {
        Histories {
            histories: Vec::new(alloc),
        }
    }

    /// Makes the histories of a vector, which is moved. Takes no memory.
    pub fn from_vec(histories: Vec<History>) -> Histories
        requires few { length histories.items ≤ shard_limit }
        requires shards { AreByShard histories.items }
        ensures value { result ≡ histories.items }
    {
        Histories { histories }
    }

    /// Appends the history of the next shard; if allocation fails it is handed back.
    pub fn add(&mut self, history: History) -> Result<(), (History, NoMemory)>
        requires room { length self.old < shard_limit }
        requires shard { AreAt (length self.old) history }
        ensures ok { OnOk result (self.new ≡ self.old ++ history ∷ []) }
        ensures err { OnErr result (self.new ≡ self.old) }
        ensures returned { IfErr result (λ e. e.0 ≡ history) }
    {
        match self.histories.push(history) {
            Ok(()) => Ok(()),
            Err(e) => Err((e.value, NoMemory)),
        }
    }

    /// Returns the number of histories.
    pub fn count(&self) -> u32
        ensures value { result ≡ length self.now }
        ensures limit { result ≤ shard_limit }
    {
        self.histories.len() as u32
    }

    /// Returns the history of a shard.
    pub fn list(&self, shard: u32) -> &History
        requires within { shard < length self.now }
        ensures value { result.now ≡ history_of self.now shard }
        ensures shard { AreAt shard result.now }
    {
        &self.histories[shard as usize]
    }

    /// Returns the vector of the histories. Takes no memory.
    pub fn into_vec(self) -> Vec<History>
        ensures value { result.items ≡ self }
        ensures shards { AreByShard result.items }
        ensures limit { length result.items ≤ shard_limit }
    {
        self.histories
    }
}
