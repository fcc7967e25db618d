//! Blocks in a list.
ghost use Rattle.std.specs.Prelude.{◌≡◌, ◌≤◌, [], ◌∷◌, ◌++◌, length, OnOk, OnErr, IfErr, IfNone, option_to_list};
ghost use Rattle.zy_home.specs.End.{blocks_in};

use std::alloc::Global;
use std::collections::VecDeque;
use std::marker::Model;
use zy_base::NoMemory;
use zy_conn::Block;

/// Blocks of connections. Contracts see the list of them. Slots without a block are skipped.
#[derive(Drop)]
pub struct Blocks {
    slots: VecDeque<Option<Block>>,
}

impl Model for Blocks {
    ghost use Rattle.std.specs.Prelude.{List};
    ghost use Rattle.zy_conn.specs.Block.{Blocked};
    ghost use Rattle.zy_home.specs.End.{blocks_in};

    ghost Value = { List Blocked };

    ghost view = { λ blocks. blocks_in blocks.slots.items };
}

impl Blocks {
    /// Begins without a block. Takes no memory.
    pub fn new(alloc: Global) -> Blocks
        ensures value { result ≡ [] }
    {
        Blocks {
            slots: VecDeque::new(alloc),
        }
    }

    /// Appends the block; if allocation fails it is handed back.
    pub fn push(&mut self, block: Block) -> Result<(), (Block, NoMemory)>
        ensures ok { OnOk result (self.new ≡ self.old ++ block ∷ []) }
        ensures err { OnErr result (self.new ≡ self.old) }
        ensures returned { IfErr result (λ e. e.0 ≡ block) }
    {
        if let Err(refused) = self.slots.push_back(Some(block)) {
            let Some(block) = refused.value else {
                unreachable!()
            };
            return Err((block, NoMemory));
        }
        Ok(())
    }

    /// Takes the first block; `None` if and only if none is left. Takes no memory.
    pub fn next(&mut self) -> Option<Block>
        ensures value { self.old ≡ option_to_list result ++ self.new }
        ensures none { IfNone result (self.old ≡ []) }
    {
        while let Some(slot) = self.slots.pop_front() {
            if slot.is_some() {
                return slot;
            }
            drop(slot);
        }
        None
    }

    // Returns a number that is at least that of the blocks.
    pub(crate) fn room(&self) -> usize
        ensures value { length self.now ≤ result }
    {
        self.slots.len()
    }

    // Makes a list of the blocks in these slots. Takes no memory.
    pub(crate) fn from_slots(slots: Vec<Option<Block>>) -> Blocks
        ensures value { result ≡ blocks_in slots.items }
    {
        Blocks {
            slots: VecDeque::from_vec(slots),
        }
    }
}
