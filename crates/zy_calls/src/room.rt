//! Room for the texts of a hold.
ghost use Rattle.std.specs.Prelude.{◌≡◌, []};

use crate::texts::Texts;
use std::alloc::Global;
use std::marker::Model;

/// Room for texts, without a text. A core lends it to the blocks that it holds, one after another,
/// so that texts are written where others were just read. Contracts see it as the list of its
/// texts.
#[derive(Drop)]
pub struct Room {
    pub(crate) texts: Texts,
}

impl Model for Room {
    ghost use Rattle.std.specs.Prelude.{ℕ, List};

    ghost Value = { List (List ℕ) };

    ghost view = { λ room. room.texts };
}

impl Room {
    /// Begins without room. Takes no memory.
    pub fn new(alloc: Global) -> Room
        ensures value { result ≡ [] }
    {
        Room {
            texts: Texts::new(alloc),
        }
    }
}
