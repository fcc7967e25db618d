//! What a frame is.

use crate::pcap_fault::PcapFault;

/// The packet of a frame, and the place of its payload.
#[derive(Clone, Copy)]
pub(crate) struct Segment {
    /// Source address, destination address, source port, destination port.
    pub(crate) flow: [u8; 12],
    pub(crate) sequence: u32,
    pub(crate) is_syn: bool,
    /// The place of the payload's first byte in the frame; 0 if the payload is empty.
    pub(crate) begin: usize,
    /// The number of the payload's bytes.
    pub(crate) size: usize,
}

/// What a frame is.
#[derive(Clone, Copy)]
pub(crate) enum Judged {
    /// A frame that is passed over.
    Passed,
    /// A frame with this fault.
    Refused(PcapFault),
    /// A packet to the port.
    Taken(Segment),
}
