//! The home of a core's connections.
ghost use Rattle.std.specs.Prelude.{◌≡◌, map};
ghost use Rattle.std.specs.List.{AllByRecursion};
ghost use Rattle.zy_home.specs.End.{HasLabel, blocks_in, ended_of};
ghost use Rattle.zy_home.specs.Home.{IsSoundHome, is_settled, all_here};

mod making;
mod receiving;
mod settling;

use crate::blocks::Blocks;
use crate::ends::Ends;
use crate::links::Links;
use std::marker::Model;
use zy_calls::Room;
use zy_conn::Block;
use zy_shuffle::HomePass;

/// The home of a core's connections: for each its inlet, framer, session ends, waiting frames and
/// output, and its block if that is in the home's hand. Contracts see it as `Homed`.
#[derive(Drop)]
pub struct Home {
    pass: HomePass<Block>,
    // By place: the block of the connection, if it is in the hand.
    blocks: Vec<Option<Block>>,
    links: Links,
    // For the texts of the blocks that the home holds.
    room: Room,
}

impl Model for Home {
    ghost use Rattle.zy_home.specs.Home.{Homed, IsSoundHome};
    ghost use Rattle.zy_home.specs.Links.{homed};

    ghost Value = { Homed };

    ghost view = { λ h. homed h.pass h.blocks.items h.links };

    ghost invariant = { λ h. IsSoundHome (homed h.pass h.blocks.items h.links) };
}

impl Home {
    /// Checks whether the end was received, and each connection is in the home's hand and idle. A
    /// home that lacked memory is not settled.
    pub fn is_settled(&self) -> bool
        ensures value { result ≡ is_settled self.now }
        ensures keeps { IsSoundHome self.now }
    {
        self.links.ended && !self.links.refused && are_here(&self.blocks)
    }

    /// Checks whether each block is in the home's hand, so that no other core has one and none is
    /// queued.
    pub fn has_all_blocks(&self) -> bool
        ensures value { result ≡ all_here self.now.blocks }
    {
        are_here(&self.blocks)
    }

    /// Checks whether an allocation failed in a call of this home.
    pub fn is_refused(&self) -> bool
        ensures value { result ≡ self.now.refused }
    {
        self.links.refused
    }

    /// Returns the pass, the blocks in the home's hand, and the ends of the connections. Takes no
    /// memory.
    pub fn into_outputs(self) -> (HomePass<Block>, Blocks, Ends)
        ensures pass { result.0 ≡ self.pass }
        ensures blocks { result.1 ≡ blocks_in self.blocks }
        ensures labels { AllByRecursion (HasLabel self.pass.label) result.1 }
        ensures ends { result.2 ≡ map ended_of self.links }
        ensures keeps { IsSoundHome self }
    {
        let Home {
            pass,
            blocks,
            links,
            room,
        } = self;
        let Links {
            places,
            items,
            ended: _,
            refused: _,
            touched,
        } = links;
        drop(places);
        drop(touched);
        drop(room);
        (pass, Blocks::from_slots(blocks), Ends::of(items))
    }
}

// Checks whether each slot has its block.
fn are_here(blocks: &[Option<Block>]) -> bool
    ensures value { result ≡ all_here blocks.now }
{
    for block in blocks {
        if block.is_none() {
            return false;
        }
    }
    true
}
