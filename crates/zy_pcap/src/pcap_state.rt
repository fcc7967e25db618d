//! The state of recorded packets.
ghost use Rattle.std.specs.Prelude.{◌≡◌};
ghost use Rattle.zy_pcap.specs.Steps.{then_due, magic_does, version_does, link_does, captured_does, number_does};
ghost use Rattle.zy_pcap.specs.Moves.{IsNumberDue, DoesNext};

use crate::due::Due;
use crate::pcap_fault::PcapFault;

const FRAME_LIMIT: u32 = 262_144;

/// What is expected next, whether numbers have their highest byte first, and the place of the last
/// record that was begun, or 0 before the first one.
#[derive(Clone, Copy)]
pub(crate) struct PcapState {
    pub(crate) due: Due,
    pub(crate) is_big: bool,
    pub(crate) begun: u64,
}

impl PcapState {
    // Returns the same state, with this as the next field.
    pub(crate) fn to(self, due: Due) -> PcapState
        ensures value { result ≡ then_due self due }
    {
        PcapState { due, ..self }
    }

    // Returns the state after a number of four bytes, or its fault.
    pub(crate) fn after_number(self, number: u32) -> Result<PcapState, PcapFault>
        requires number { IsNumberDue self.due }
        ensures value { DoesNext (number_does self.due self number) result }
    {
        match self.due {
            Due::Magic => self.after_magic(number),
            Due::Version => self.after_version(number),
            Due::LinkType => self.after_link_type(number),
            Due::Captured => self.after_captured(number),
            _ => unreachable!(),
        }
    }

    // Returns the state after the magic, or its fault.
    fn after_magic(self, number: u32) -> Result<PcapState, PcapFault>
        ensures value { DoesNext (magic_does self number) result }
    {
        match number {
            0xa1b2_c3d4 => Ok(self.to(Due::Version)),
            0xd4c3_b2a1 => Ok(PcapState {
                due: Due::Version,
                is_big: false,
                ..self
            }),
            _ => Err(PcapFault::Magic { at: 0 }),
        }
    }

    // Returns the state after the version, or its fault.
    fn after_version(self, number: u32) -> Result<PcapState, PcapFault>
        ensures value { DoesNext (version_does self number) result }
    {
        let high = (number / 65_536) as u16;
        let low = (number % 65_536) as u16;
        match if self.is_big {
            (high, low)
        } else {
            (low, high)
        } {
            (2, 4) => Ok(self.to(Due::Settings)),
            (major, minor) => Err(PcapFault::Version { major, minor }),
        }
    }

    // Returns the state after the link type, or its fault.
    fn after_link_type(self, number: u32) -> Result<PcapState, PcapFault>
        ensures value { DoesNext (link_does self number) result }
    {
        match number {
            1 => Ok(self.to(Due::Begin)),
            number => Err(PcapFault::LinkType { number }),
        }
    }

    // Returns the state after the captured length of a record, or its fault.
    fn after_captured(self, number: u32) -> Result<PcapState, PcapFault>
        ensures value { DoesNext (captured_does self number) result }
    {
        if number > FRAME_LIMIT {
            let at = self.begun;
            return Err(PcapFault::RecordLength { at, number });
        }
        Ok(self.to(Due::Original { size: number }))
    }
}
