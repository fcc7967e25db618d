//! Slots of lines.
ghost use Rattle.std.specs.Prelude.{◌≡◌};
ghost use Rattle.mc_shard.specs.Places.{had_by};

/// Where an item is, with the hash of its key.
#[derive(Clone, Copy)]
pub struct Slot {
    pub(crate) hash: u32,
    pub(crate) place: u32,
}

/// Where the place of a key goes.
#[derive(Clone, Copy)]
pub enum Spot {
    /// Into the slot of its line that it has, by its index.
    Slot(usize),
    /// Into the tree, which has the key.
    Tree,
    /// Into a slot of its own, since the key is new. Its line has room for one.
    New,
}

impl Spot {
    /// Checks whether the key has a place.
    #[inline(always)]
    pub fn had(self) -> bool
        ensures value { result ≡ had_by self }
    {
        !matches!(self, Spot::New)
    }
}

const _: () = prove!(size_of::<Slot>() == 8);
