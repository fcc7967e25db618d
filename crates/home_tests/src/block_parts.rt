//! A store, and the block of one of its connections.
ghost use Rattle.std.specs.Prelude.{◌≡◌, [], ◌∷◌};
ghost use Rattle.mc_store.specs.Pass.{rooted};

use crate::sure::sure;
use mc_store::{Root, StoreTable};
use std::alloc::Global;
use std::process::Abort;
use zy_base::Blob;
use zy_conn::{Block, EventInlet};
use zy_frame::{Framer, Frames};

/// A store with its root, and the block of a connection with its inlet.
#[derive(Drop)]
pub(crate) struct BlockParts {
    pub(crate) store: StoreTable,
    pub(crate) root: Root,
    pub(crate) block: Block,
    pub(crate) inlet: EventInlet,
}

/// Makes a store of 16 shards, and the block of connection 0.
pub(crate) fn block_parts(rt: &impl Abort, alloc: Global) -> BlockParts
    ensures table { result.block.work.table ≡ result.store.id }
    ensures cores { result.block.cores ≡ 64 }
    ensures root { result.root ≡ rooted result.store.id (0 ∷ []) [] }
    ensures ring { result.inlet.ring ≡ result.block.work.ring }
{
    let (store, mut root) = sure(rt, StoreTable::new(alloc, 16));
    let pass = sure(rt, store.split(&mut root, 0));
    let (block, inlet) = sure(rt, Block::new(alloc, 0, pass));
    BlockParts {
        store,
        root,
        block,
        inlet,
    }
}

/// Offers the frames of a text, up to the first for which there is no room.
pub(crate) fn offer_text(rt: &impl Abort, alloc: Global, inlet: &mut EventInlet, text: &[u8])
    ensures kept { inlet.new.ring ≡ inlet.old.ring }
{
    let mut framer = Framer::new(alloc);
    let mut frames = Frames::new(alloc);
    let piece = sure(rt, Blob::copy_of(alloc, text));
    sure(rt, framer.feed(&piece, &mut frames));
    drop(piece);
    drop(framer);
    while let Some(frame) = frames.next() {
        let refused = inlet.offer(frame);
        let is_refused = refused.is_some();
        drop(refused);
        if is_refused {
            break;
        }
    }
    drop(frames);
}
