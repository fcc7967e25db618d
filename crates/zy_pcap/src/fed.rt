//! How many of some bytes were taken, and the answer to the last one.
ghost use Rattle.std.specs.Prelude.{◌≡◌, ◌<◌, ◌-◌, ◌^◌, Err};
ghost use Rattle.zy_pcap.specs.Standing.{taken_before};

use crate::pcap_fault::PcapFeed;

/// The number of bytes taken, and the answer to the last one.
#[derive(Drop)]
pub struct Fed {
    /// The number of bytes taken; after `NoMemory`, of those before the byte that needs memory.
    pub taken: usize,
    /// A fault at the last byte taken; `Ok` if all bytes were taken and there is none.
    pub answer: Result<(), PcapFeed>,
}

impl Fed {
    // Returns the answer when the byte after `before` others was not taken, or was a fault.
    pub(crate) fn stopped(before: usize, refused: PcapFeed) -> Fed
        requires room { before < 2 ^ 64 - 1 }
        ensures taken { result.taken ≡ taken_before before refused }
        ensures answer { result.answer ≡ Err refused }
    {
        let taken = match refused {
            PcapFeed::Fault(_) => before + 1,
            PcapFeed::NoMemory => before,
        };
        Fed {
            taken,
            answer: Err(refused),
        }
    }
}
