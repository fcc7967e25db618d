//! The result of a round of a group of cores.
ghost use Rattle.std.specs.Prelude.{◌≡◌, ◌≢◌};
ghost use Rattle.zy_rounds.specs.Round.{round_of, with_round, with_work, calls_up};

use zy_core::Came;

/// The result of a round of turns of a group of cores.
#[derive(Clone, Copy, Drop, PartialEq, Eq)]
pub enum Round {
    /// A turn worked, or a core counted itself.
    Worked,
    /// A turn worked, and its hold ended at a busy shard.
    Busy,
    /// The one core of the group rested.
    Rested,
    /// There was nothing to do.
    Idle,
}

impl Round {
    // Returns the result of one turn.
    pub(crate) fn of(came: Came) -> Round
        ensures value { result ≡ round_of came }
        ensures awake { result ≢ Round.Rested }
    {
        match came {
            Came::Worked => Round::Worked,
            Came::Busy => Round::Busy,
            Came::Idle { own: _ } | Came::Settled => Round::Idle,
        }
    }

    /// Returns the result of this round and another one, neither of which is a rest.
    pub fn with(self, other: Round) -> Round
        ensures value { result ≡ with_round self other }
        ensures awake { result ≢ Round.Rested }
    {
        match (self, other) {
            (Round::Busy, _) | (_, Round::Busy) => Round::Busy,
            (Round::Worked, _) | (_, Round::Worked) => Round::Worked,
            _ => Round::Idle,
        }
    }

    // Returns the result of this round, by whether a core then counted itself. A core becomes
    // settled in a turn that works, and counts itself after it, so a round with a count has worked
    // already. The count is handled anyway, so that the last one calls up the others whatever the
    // turns came to.
    pub(crate) fn then(self, counted: bool) -> Round
        ensures value { result ≡ with_work counted self }
        ensures awake { self ≢ Round.Rested → result ≢ Round.Rested }
    {
        match self {
            Round::Idle if counted => Round::Worked,
            round => round,
        }
    }

    /// Checks whether cores that rest may have something to do after this round.
    pub fn calls_up(self) -> bool
        ensures value { result ≡ calls_up self }
    {
        match self {
            Round::Worked | Round::Busy => true,
            Round::Rested | Round::Idle => false,
        }
    }
}
