//! The rests of homes.
ghost use Rattle.std.specs.Prelude.{◌≡◌, ◌≢◌, [], ◌∷◌, map, IfOk, OnOk};
ghost use Rattle.std.specs.List.{AllByRecursion};
ghost use Rattle.zy_home.specs.End.{ended_output};
ghost use Rattle.zy_home.specs.Home.{IsSoundHome};
ghost use Rattle.zy_finish.specs.Rest.{rest_of_home};

use std::alloc::Global;
use zy_base::NoMemory;
use zy_calls::Output;
use zy_conn::Block;
use zy_home::{Blocks, Ends, Home};

/// The rest of a home: the blocks and the outputs of its connections that were not taken yet, by
/// rising number.
#[derive(Drop)]
pub(crate) struct Rest {
    pub(crate) blocks: Blocks,
    pub(crate) ends: Ends,
}

/// A connection at the end: its block, its output, and the ends of its closed sessions.
#[derive(Drop)]
pub(crate) struct Last {
    pub(crate) block: Block,
    pub(crate) output: Output,
    pub(crate) ends: Vec<u64>,
}

impl Rest {
    /// Takes the next connection. Takes no memory.
    pub(crate) fn next(&mut self) -> Last
        requires block { self.old.blocks ≢ [] }
        requires end { self.old.ends ≢ [] }
        ensures block { self.old.blocks ≡ result.block ∷ self.new.blocks }
        ensures end { self.old.ends ≡ ended_output result.output result.ends.items ∷ self.new.ends }
    {
        let Some(block) = self.blocks.next() else {
            unreachable!()
        };
        let Some((output, ends)) = self.ends.next() else {
            unreachable!()
        };
        Last {
            block,
            output,
            ends,
        }
    }
}

/// Makes the rests of homes, with all that each home keeps.
pub(crate) fn rests_of(alloc: Global, homes: Vec<Home>) -> Result<Vec<Rest>, NoMemory>
    ensures value { IfOk result (λ rests. rests.items ≡ map rest_of_home homes.items) }
    ensures keeps { OnOk result (AllByRecursion IsSoundHome homes.items) }
{
    let Ok(mut rests) = Vec::with_capacity(alloc, homes.len()) else {
        drop(homes);
        return Err(NoMemory);
    };
    for home in homes {
        let (_, blocks, ends) = home.into_outputs();
        rests.push_reserved(Rest { blocks, ends });
    }
    Ok(rests)
}
