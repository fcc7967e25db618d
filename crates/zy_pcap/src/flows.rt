//! The streams of recorded packets.
ghost use Rattle.std.specs.Prelude.{◌≡◌, ◌≤◌, length};
ghost use Rattle.zy_pcap.specs.Streams.{kept_streams};

use crate::kept_flow::KeptFlow;
use crate::kept_flows::KeptFlows;
use std::marker::Model;

/// The streams of the sessions of all flows. Contracts see them as the list of the connections'
/// lists of sessions, each a list of bytes; a connection number that was given to no flow has no
/// session.
#[derive(Drop)]
pub struct Flows {
    kept: KeptFlows,
}

impl Model for Flows {
    ghost use Rattle.std.specs.Prelude.{List, ℕ, ◌≤◌, length};
    ghost use Rattle.zy_pcap.specs.Streams.{kept_streams};

    ghost Value = { List (List (List ℕ)) };

    ghost view = { λ f. kept_streams f.kept.flows.items };

    ghost invariant = { λ f. length f.kept.flows.items ≤ 4096 };
}

impl Flows {
    // Makes the streams of the flows that were kept.
    pub(crate) fn of(kept: KeptFlows) -> Flows
        requires limit { length kept.flows.items ≤ 4096 }
        ensures value { result ≡ kept_streams kept.flows.items }
    {
        Flows { kept }
    }

    // Returns what is kept.
    #[tactic(auto, using(crate::proofs::StreamLemmas::streams_length))]
    pub(crate) fn kept(&self) -> &[Option<KeptFlow>]
        ensures value { kept_streams result.now ≡ self.now }
        ensures limit { length result.now ≤ 4096 }
    {
        self.kept.flows.as_slice()
    }

    /// Returns the count of connections: the greatest number given plus one, or 0.
    #[tactic(auto, using(crate::proofs::StreamLemmas::streams_length))]
    pub fn count(&self) -> u32
        ensures value { result ≡ length self.now }
        ensures limit { result ≤ 4096 }
    {
        self.kept.flows.len() as u32
    }
}
