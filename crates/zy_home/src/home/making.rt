//! How a home is made.
ghost use Rattle.std.specs.Prelude.{◌≡◌, ◌<◌, ◌≤◌, ◌+◌, List, [], map, Some, length, IfOk, IfErr, vec_len};
ghost use Rattle.std.specs.Prelude.{vec_capacity};
ghost use Rattle.zy_home.specs.Parts.{AreParts, AreFresh, rings_of_blocks, rings_of_inlets};
ghost use Rattle.zy_home.specs.Home.{HomeStands, IsMade};

use super::Home;
use crate::blocks::Blocks;
use crate::link::Link;
use crate::links::Links;
use crate::parts::{HomeParts, Inlets};
use crate::places::Places;
use std::alloc::Global;
use zy_base::NoMemory;
use zy_calls::Room;
use zy_conn::Block;

impl Home {
    /// Makes the home of core `core` of `cores`, with those of the `count` connections that are its
    /// own. If allocation fails, the parts are handed back.
    pub fn new(
        alloc: Global,
        core: u32,
        cores: u32,
        count: u32,
        parts: HomeParts,
    ) -> Result<Home, (HomeParts, NoMemory)>
        requires core { core < cores }
        requires cores { cores ≤ 64 }
        requires parts { AreParts core cores count parts }
        ensures ok { IfOk result (λ home. IsMade core cores count parts.pass parts.blocks home) }
        ensures stands { IfOk result (λ home. HomeStands home []) }
        ensures returned { IfErr result (λ e. e.0 ≡ parts) }
    {
        let room = parts.blocks.room();
        let Ok(places) = Places::new(alloc, core, cores, count) else {
            return Err((parts, NoMemory));
        };
        let Ok(mut slots) = Vec::with_capacity(alloc, room) else {
            drop(places);
            return Err((parts, NoMemory));
        };
        let Ok(mut links) = Vec::with_capacity(alloc, room) else {
            drop(places);
            return Err((parts, NoMemory));
        };
        let HomeParts {
            pass,
            mut blocks,
            mut inlets,
        } = parts;
        fill(alloc, &mut blocks, &mut inlets, &mut slots, &mut links);
        Ok(Home {
            pass,
            blocks: slots,
            links: Links {
                places,
                items: links,
                ended: false,
                refused: false,
                touched: Vec::new(alloc),
            },
            room: Room::new(alloc),
        })
    }
}

// Puts each block into its slot, and makes the link of its connection with its inlet.
fn fill(
    alloc: Global,
    blocks: &mut Blocks,
    inlets: &mut Inlets,
    slots: &mut Vec<Option<Block>>,
    links: &mut Vec<Link>,
)
    requires rings { rings_of_inlets inlets.old ≡ rings_of_blocks blocks.old }
    requires room { (length blocks.old ≤ vec_capacity slots.old) × (length blocks.old ≤ vec_capacity links.old) }
    requires empty { (slots.old.items ≡ []) × (links.old.items ≡ []) }
    ensures slots { slots.new.items ≡ map Some blocks.old }
    ensures links { AreFresh blocks.old inlets.old links.new.items }
{
    while let Some(block) = blocks.next() {
        let Some(inlet) = inlets.next() else {
            unreachable!()
        };
        links.push_reserved(Link::new(alloc, block.conn(), inlet));
        slots.push_reserved(Some(block));
    }
}
