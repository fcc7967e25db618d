//! Calls without a key, which a command makes on all shards.
ghost use Rattle.std.specs.Prelude.{◌≡◌};
ghost use Rattle.mc_parse.specs.OnAll.{made_by};

use mc_calls::Call;

/// A call without a key.
#[derive(Clone, Copy)]
pub(crate) enum OnAll {
    /// Removes all items.
    Flush,
    /// Asks for the counts.
    Tally,
}

impl OnAll {
    // Returns the call.
    pub(crate) fn call(self) -> Call
        ensures value { result ≡ made_by self }
    {
        match self {
            OnAll::Flush => Call::Flush,
            OnAll::Tally => Call::Tally,
        }
    }
}
