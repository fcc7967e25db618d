//! Reading recorded packets.
ghost use Rattle.std.specs.Prelude.{◌≡◌, ◌≤◌, [], ℕ};
ghost use Rattle.zy_pcap.specs.Standing.{StandsForFile};
ghost use Rattle.zy_input.specs.Kinds.{packets_kind};

use crate::part::{Part, Taken};
use crate::stop::{Refusal, Stop};
use std::alloc::Global;
use zy_pcap::{Fed, Flows, PcapFeed, PcapReader};
use zy_read::Pieces;

/// The reader of recorded packets.
#[derive(Drop)]
pub(crate) struct PacketsPart {
    reader: PcapReader,
}

impl PacketsPart {
    // Begins before the first byte.
    pub(crate) fn new(alloc: Global, port: u16) -> PacketsPart
        requires port { 1 ≤ port }
        ensures port { result.reader.port ≡ port }
        ensures value { StandsForFile result.reader [] }
    {
        PacketsPart {
            reader: PcapReader::new(alloc, port),
        }
    }
}

impl Part for PacketsPart {
    type Gives = Flows;

    ghost Setting = { ℕ };

    ghost kind = { packets_kind };

    // Takes all of the bytes, since the file ends with the source.
    fn take(&mut self, pieces: &mut Pieces) -> Taken {
        let Fed { taken, answer } = self.reader.feed_piece(pieces.left());
        let answer = match answer {
            Ok(()) => Ok(false),
            Err(PcapFeed::Fault(fault)) => Err(Stop::Refused(Refusal::Pcap(fault))),
            Err(PcapFeed::NoMemory) => Err(Stop::NoMemory),
        };
        Taken {
            count: taken,
            answer,
        }
    }

    fn end(self) -> Result<Flows, Stop> {
        match self.reader.finish() {
            Ok(flows) => Ok(flows),
            Err(fault) => Err(Stop::Refused(Refusal::Pcap(fault))),
        }
    }
}
