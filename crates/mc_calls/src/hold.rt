//! Holds: which core finished how many commands of which connection.

use zy_base::Items;

/// A core had a connection in its hand, and finished this many of its commands, 1 to 64.
#[derive(Clone, Copy, PartialEq, Eq)]
pub struct Hold {
    pub core: u32,
    pub conn: u32,
    pub count: u32,
}

/// A list of holds.
pub type Holds = Items<Hold>;
