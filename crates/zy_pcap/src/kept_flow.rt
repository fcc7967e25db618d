//! What is kept of a flow.
ghost use Rattle.std.specs.Prelude.{◌≡◌, ◌<◌, [], length, true, IfOk};
ghost use Rattle.zy_pcap.specs.Packet.{packet_with};
ghost use Rattle.zy_pcap.specs.Flow as flows;
ghost use Rattle.zy_pcap.specs.Kept.{KeepsFlow, MeetsSessions, BeginsSession, continues};

use crate::judged::Segment;
use crate::kept_session::KeptSession;
use crate::pcap_fault::PcapFeed;
use std::alloc::Global;
use zy_base::NoMemory;

/// A flow's key and its sessions.
#[derive(Drop)]
pub(crate) struct KeptFlow {
    pub(crate) key: [u8; 12],
    pub(crate) sessions: Vec<KeptSession>,
}

impl KeptFlow {
    // Returns the flow that a packet begins.
    pub(crate) fn begun(
        alloc: Global,
        segment: &Segment,
        payload: &[u8],
    ) -> Result<KeptFlow, NoMemory>
        requires few { length payload.now < 65536 }
        ensures value { IfOk result (λ kept.
            KeepsFlow kept (flows.grown_flow [] (packet_with segment.now payload.now))) }
    {
        let mut sessions = match Vec::with_capacity(alloc, 1) {
            Ok(sessions) => sessions,
            Err(_) => return Err(NoMemory),
        };
        match KeptSession::begun(alloc, segment, payload) {
            Ok(session) => sessions.push_reserved(session),
            Err(refused) => {
                drop(sessions);
                return Err(refused);
            }
        }
        Ok(KeptFlow {
            key: segment.flow,
            sessions,
        })
    }

    // Takes a packet of this flow.
    pub(crate) fn meet(
        &mut self,
        at: u64,
        segment: &Segment,
        payload: &[u8],
    ) -> Result<(), PcapFeed>
        requires few { length payload.now < 65536 }
        ensures value { MeetsSessions (packet_with segment.now payload.now) at
            self.old.sessions.items self.new.sessions.items result }
        ensures key { self.new.key ≡ self.old.key }
    {
        if self.goes_on(segment) {
            let last = self.sessions.len() - 1;
            return self.sessions[last].meet(at, segment, payload);
        }
        self.begin(segment, payload)
    }

    // Checks whether a packet is one of the current session.
    fn goes_on(&self, segment: &Segment) -> bool
        ensures value { result ≡ continues self.now.sessions.items segment.now }
        ensures some { result ≡ true → 0 < length self.now.sessions.items }
    {
        match self.sessions.last() {
            Some(session) => !session.is_ended_by(segment),
            None => false,
        }
    }

    // Begins a session with a packet.
    fn begin(&mut self, segment: &Segment, payload: &[u8]) -> Result<(), PcapFeed>
        requires few { length payload.now < 65536 }
        ensures value { BeginsSession (packet_with segment.now payload.now)
            self.old.sessions.items self.new.sessions.items result }
        ensures key { self.new.key ≡ self.old.key }
    {
        let alloc = *self.sessions.allocator();
        let session = match KeptSession::begun(alloc, segment, payload) {
            Ok(session) => session,
            Err(_) => return Err(PcapFeed::NoMemory),
        };
        match self.sessions.push(session) {
            Ok(()) => Ok(()),
            Err(refused) => {
                drop(refused);
                Err(PcapFeed::NoMemory)
            }
        }
    }
}
