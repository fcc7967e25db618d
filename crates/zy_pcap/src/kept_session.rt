//! What is kept of a session.
ghost use Rattle.std.specs.Prelude.{◌≡◌, ◌+◌, ◌<◌, ◌≤◌, ◌^◌, length, IfOk};
ghost use Rattle.zy_pcap.specs.Packet.{packet_with};
ghost use Rattle.zy_pcap.specs.Session.{number_after, session_begun_by};
ghost use Rattle.zy_pcap.specs.Kept.{KeepsSession, MeetsSession, Adds, apart, is_ended_by};

use crate::judged::Segment;
use crate::kept_stream::KeptStream;
use crate::pcap_fault::{PcapFault, PcapFeed};
use std::alloc::Global;
use zy_base::NoMemory;

// The first offset whose byte is a fault; those from twice this on come before the session.
const FAR: u32 = 1 << 30;

/// A session's first sequence number, whether it began with SYN, and its bytes by offset.
#[derive(Drop)]
pub(crate) struct KeptSession {
    pub(crate) sequence: u32,
    pub(crate) is_syn: bool,
    pub(crate) bytes: KeptStream,
}

// Returns the sequence number of the first payload byte.
fn number_after(sequence: u32, is_syn: bool) -> u32
    ensures value { result ≡ number_after sequence is_syn }
{
    if is_syn {
        sequence.wrapping_add(1)
    } else {
        sequence
    }
}

impl KeptSession {
    // Returns the session that a packet begins.
    pub(crate) fn begun(
        alloc: Global,
        segment: &Segment,
        payload: &[u8],
    ) -> Result<KeptSession, NoMemory>
        requires few { length payload.now < 65536 }
        ensures value { IfOk result (λ kept.
            KeepsSession kept (session_begun_by (packet_with segment.now payload.now))) }
    {
        let mut bytes = KeptStream::new(alloc);
        if let Err(refused) = bytes.add(0, payload) {
            drop(bytes);
            return Err(refused);
        }
        Ok(KeptSession {
            sequence: segment.sequence,
            is_syn: segment.is_syn,
            bytes,
        })
    }

    // Checks whether a packet begins a new session.
    pub(crate) fn is_ended_by(&self, segment: &Segment) -> bool
        ensures value { result ≡ is_ended_by self.now segment.now }
    {
        segment.is_syn && !(self.is_syn && self.sequence == segment.sequence)
    }

    // Returns the offset of a packet's first payload byte.
    fn offset(&self, segment: &Segment) -> u32
        ensures value { result ≡ apart (number_after self.now.sequence self.now.is_syn)
            (number_after segment.now.sequence segment.now.is_syn) }
    {
        let base = number_after(self.sequence, self.is_syn);
        number_after(segment.sequence, segment.is_syn).wrapping_sub(base)
    }

    // Takes a packet of this session.
    pub(crate) fn meet(
        &mut self,
        at: u64,
        segment: &Segment,
        payload: &[u8],
    ) -> Result<(), PcapFeed>
        requires few { length payload.now < 65536 }
        ensures value { MeetsSession (packet_with segment.now payload.now) at
            self.old self.new result }
    {
        if payload.is_empty() {
            return Ok(());
        }
        let offset = self.offset(segment);
        if offset < 2 * FAR {
            if offset as usize + payload.len() > FAR as usize {
                return Err(PcapFeed::Fault(PcapFault::FlowLength { at }));
            }
            return self.add(offset, payload);
        }
        let before = (offset.wrapping_neg()) as usize;
        if before >= payload.len() {
            return Ok(());
        }
        self.add(0, &payload[before..])
    }

    // Keeps bytes from an offset on.
    fn add(&mut self, from: u32, bytes: &[u8]) -> Result<(), PcapFeed>
        requires within { from + length bytes.now ≤ 2 ^ 31 }
        ensures value { Adds self.old self.new from bytes.now result }
    {
        match self.bytes.add(from, bytes) {
            Ok(()) => Ok(()),
            Err(_) => Err(PcapFeed::NoMemory),
        }
    }
}
