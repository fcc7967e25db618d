//! The answer of a nap.
ghost use Rattle.std.specs.Prelude.{◌≡◌};
ghost use Rattle.zy_core.specs.Nap.{stays_awake, nap_of};

use crate::turn::Turn;

/// How a nap of a core ended.
#[derive(Drop)]
pub enum Nap {
    /// The core did not rest: this turn found something to do, or found that the core is settled
    /// and has not counted itself. The second case cannot occur if a core counts itself as soon as
    /// a turn leaves it settled, as cores that are driven do: only a turn that works makes a core
    /// settled.
    Awake(Turn),
    /// The core did not rest, since the run ends: all cores are done, or they are to stop. It
    /// loaded these values of done and stop.
    Ending { done: u64, stop: u64 },
    /// The core rested, and has taken its token.
    Rested,
}

impl Nap {
    // Returns the end of a nap with this turn and these values of the control words, by whether the
    // core has counted itself and the number of cores.
    pub(crate) fn of(turn: Turn, is_counted: bool, cores: u64, done: u64, stop: u64) -> Nap
        ensures value { result ≡ nap_of cores is_counted turn done stop }
    {
        if turn.keeps_awake(is_counted) {
            return Nap::Awake(turn);
        }
        drop(turn);
        if done == cores || stop != 0 {
            Nap::Ending { done, stop }
        } else {
            Nap::Rested
        }
    }
}

impl Turn {
    // Checks whether a core that took this turn, and that has counted itself or not, stays awake.
    pub(crate) fn keeps_awake(&self, is_counted: bool) -> bool
        ensures value { result ≡ stays_awake is_counted self.now }
    {
        match self {
            Turn::Worked => true,
            Turn::Idle { .. } => false,
            Turn::Settled { .. } => !is_counted,
        }
    }
}
