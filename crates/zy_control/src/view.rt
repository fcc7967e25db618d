//! What a seat at the control words knows. No value of these types is made.

/// The value of a word after a step on it, and the number of that step.
pub struct Sight {
    pub value: u64,
    pub step: u64,
}

/// The number of steps that a seat has made, and the value of each word after its last step on it.
pub struct Trace {
    pub steps: u64,
    pub done: Sight,
    pub stop: Sight,
    pub sleepers: Sight,
}

/// The role of a seat: the root knows how many seats it gave; a core knows its number, whether it
/// has counted itself, and whether it has announced itself; a watcher does neither.
pub enum Role {
    Root(u64),
    Core(u64, bool, bool),
    Watcher,
}

/// What a seat knows: its role, the number of cores, and what it has seen.
pub struct View {
    pub role: Role,
    pub cores: u64,
    pub trace: Trace,
}
