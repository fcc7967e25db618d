//! The parts of which a home is made.
use crate::blocks::Blocks;
use zy_base::Queue;
use zy_conn::{Block, EventInlet};
use zy_shuffle::HomePass;

/// The ends of event rings to which frames are offered.
pub type Inlets = Queue<EventInlet>;

/// The parts of which a home is made: its pass on its ring, the blocks of its connections by rising
/// number, and their inlets in the same order.
#[derive(Drop)]
pub struct HomeParts {
    pub pass: HomePass<Block>,
    pub blocks: Blocks,
    pub inlets: Inlets,
}
