//! The answer of a turn.
ghost use Rattle.std.specs.Prelude.{◌≡◌, ◌||◌};
ghost use Rattle.zy_home.specs.Home.{is_settled};
ghost use Rattle.zy_core.specs.Turn.{came_without_hold, came_to, held_to, is_work};

use zy_conn::HoldEnd;
use zy_home::Home;
use zy_steal::{Look, Looks};

/// The answer of a turn of a core.
#[derive(Drop)]
pub enum Turn {
    /// An item was received, or a block was collected, claimed or stolen.
    Worked,
    /// The turn found nothing to do, and the core is not settled. `own` says why its own claim took
    /// nothing, and `looks` why each claim at another core did.
    Idle { own: Look, looks: Looks },
    /// The turn found nothing to do, and the core is settled.
    Settled { looks: Looks },
}

/// The answer of a turn over a table of looks that its caller owns.
#[derive(Drop)]
pub enum Came {
    /// An item was received, or a block was collected, claimed or stolen.
    Worked,
    /// A block was claimed or stolen, and its hold ended because the next call found its shard
    /// busy.
    Busy,
    /// The turn found nothing to do, and the core is not settled. `own` says why its own claim took
    /// nothing, and the table why each claim at another core did.
    Idle { own: Look },
    /// The turn found nothing to do, and the core is settled.
    Settled,
}

impl Came {
    // Returns the answer of a turn whose block was held to this end.
    pub(crate) fn held(end: HoldEnd) -> Came
        ensures value { result ≡ held_to end }
    {
        match end {
            HoldEnd::Busy { .. } => Came::Busy,
            _ => Came::Worked,
        }
    }

    // Returns the answer of a turn in which nothing was claimed or stolen.
    pub(crate) fn of(received: bool, collected: bool, own: Look, home: &Home) -> Came
        ensures value { result ≡ came_without_hold (received || collected) own (is_settled home.now) }
    {
        if received || collected {
            Came::Worked
        } else if home.is_settled() {
            Came::Settled
        } else {
            Came::Idle { own }
        }
    }

    // Returns the same answer, with these looks.
    pub(crate) fn with(self, looks: Looks) -> Turn
        ensures value { result ≡ came_to self looks }
    {
        match self {
            Came::Worked | Came::Busy => Turn::Worked,
            Came::Idle { own } => Turn::Idle { own, looks },
            Came::Settled => Turn::Settled { looks },
        }
    }

    /// Checks whether the turn worked, even if its hold found a shard busy.
    pub fn has_worked(&self) -> bool
        ensures value { result ≡ is_work self.now }
    {
        match self {
            Came::Worked | Came::Busy => true,
            Came::Idle { .. } | Came::Settled => false,
        }
    }
}
