//! Faults of recorded packets.

use zy_read::NotTaken;

/// What is wrong with recorded packets. Places count from 0 in the file; those of packets are the
/// places of their records.
#[derive(Clone, Copy, PartialEq, Eq)]
pub enum PcapFault {
    /// The first four bytes are the magic in neither order; the place is 0.
    Magic { at: u64 },
    /// The version is not 2.4.
    Version { major: u16, minor: u16 },
    /// The link type is not 1, Ethernet.
    LinkType { number: u32 },
    /// The captured length of a record is over 262,144.
    RecordLength { at: u64, number: u32 },
    /// A packet to the port over IPv6.
    Ipv6 { at: u64 },
    /// A frame with a VLAN tag.
    Vlan { at: u64 },
    /// A fragment of an IP packet.
    Fragment { at: u64 },
    /// A frame that is shorter than its headers, or whose lengths contradict each other.
    Short { at: u64 },
    /// A payload that was not captured whole.
    Missing { at: u64 },
    /// A new flow of a group that has 32 flows.
    FlowCount { at: u64 },
    /// A payload byte that is 2^30 bytes or more, and less than 2^31, after its session's first byte.
    FlowLength { at: u64 },
    /// The input ended within the header or a record; the place is the number of bytes read.
    PcapTruncated { at: u64 },
    /// A byte was given beyond the 4,294,967,295 that recorded packets may have.
    PcapTooLong,
}

/// Why the reader of recorded packets didn't take a byte.
pub type PcapFeed = NotTaken<PcapFault>;
