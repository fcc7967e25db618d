//! The reader of recorded packets.
ghost use Rattle.std.specs.Prelude.{◌≡◌, ◌<◌, ◌≤◌, [], ◌∷◌, length, take, None, IsOk};
ghost use Rattle.zy_pcap.specs.Steps.{file_limit};
ghost use Rattle.zy_pcap.specs.Standing.{StandsForFile, FeedsFile, FeedsFileAs, TellsFileFault, TellsLastingFault, FinishesBy};
ghost use Rattle.zy_pcap.specs.Moves.{frame_read};
ghost use Rattle.zy_pcap.specs.Step.{AnswersByte, MeetsFrame, PlaceIs};

use crate::fed::Fed;
use crate::flows::Flows;
use crate::frame::judge;
use crate::judged::Judged;
use crate::kept_flows::KeptFlows;
use crate::pcap_fault::{PcapFault, PcapFeed};
use crate::records::Records;
use std::alloc::Global;
use std::marker::Model;

/// Reads recorded packets, byte by byte, and joins the payloads of those to one port by their
/// sequence numbers.
#[derive(Drop)]
pub struct PcapReader {
    port: u16,
    records: Records,
    kept: KeptFlows,
}

impl Model for PcapReader {
    ghost use Rattle.std.specs.Prelude.{◌≤◌, length};
    ghost use Rattle.zy_pcap.specs.Standing.{PcapReading};
    ghost use Rattle.zy_pcap.specs.Moves.{IsPartOfField};

    ghost Value = { PcapReading };

    ghost view = { λ r. record { port = r.port; place = r.records; kept = r.kept.flows.items } };

    ghost invariant = { λ r. (length r.kept.flows.items ≤ 4096)
        × IsPartOfField r.records };
}

impl PcapReader {
    /// Makes a reader to which no byte was fed, of packets to this port. Takes no memory.
    #[tactic(auto, using(crate::proofs::ReadLemmas::begins))]
    pub fn new(alloc: Global, port: u16) -> PcapReader
        requires port { 1 ≤ port }
        ensures port { result.port ≡ port }
        ensures value { StandsForFile result [] }
    {
        PcapReader {
            port,
            records: Records::new(alloc),
            kept: KeptFlows::new(alloc),
        }
    }

    /// Takes the next byte.
    ///
    /// After a fault each call answers that same fault. May answer `NoMemory`; then no byte was taken.
    pub fn feed(&mut self, byte: u8) -> Result<(), PcapFeed>
        ensures port { self.new.port ≡ self.old.port }
        ensures fed { FeedsFileAs self.old self.new (byte ∷ []) result }
        ensures exact { TellsFileFault self.old (byte ∷ []) result }
        ensures lasts { TellsLastingFault self.old (byte ∷ []) result }
    {
        self.step(byte)
    }

    /// Takes bytes up to and including the first fault, or all of them if there is none.
    ///
    /// After `NoMemory` the bytes before the one that needs memory are taken.
    pub fn feed_piece(&mut self, bytes: &[u8]) -> Fed
        requires some { 0 < length bytes.now }
        ensures port { self.new.port ≡ self.old.port }
        ensures within { result.taken ≤ length bytes.now }
        ensures none { IsOk result.answer → result.taken ≡ length bytes.now }
        ensures fed { FeedsFile self.old self.new (take result.taken bytes.now) }
        ensures exact { TellsFileFault self.old (take result.taken bytes.now) result.answer }
        ensures lasts { TellsLastingFault self.old (take result.taken bytes.now) result.answer }
    {
        let mut at = 0;
        while at < bytes.len() {
            at += self.take_run(&bytes[at..]);
            if let Err(refused) = self.feed(bytes[at]) {
                return Fed::stopped(at, refused);
            }
            at += 1;
        }
        Fed {
            taken: at,
            answer: Ok(()),
        }
    }

    // Takes some of these bytes, the first ones, which are within a frame, but not the last one.
    // Returns how many, which may be none.
    fn take_run(&mut self, bytes: &[u8]) -> usize
        requires some { 0 < length bytes.now }
        ensures port { self.new.port ≡ self.old.port }
        ensures within { result < length bytes.now }
        ensures fed { FeedsFile self.old self.new (take result bytes.now) }
    {
        self.records.take_run(bytes)
    }

    // Takes the next byte.
    fn step(&mut self, byte: u8) -> Result<(), PcapFeed>
        ensures port { self.new.port ≡ self.old.port }
        ensures value { AnswersByte self.old self.new byte result }
    {
        match self.records.take(byte) {
            Ok(false) => Ok(()),
            Ok(true) => settle(&mut self.records, &mut self.kept, self.port),
            Err(refused) => Err(refused),
        }
    }

    /// Returns the streams of all flows if the bytes that were fed are a whole file, and otherwise
    /// their first fault. Takes no memory.
    #[tactic(auto, using(crate::proofs::ReadLemmas::finished, crate::proofs::ReadLemmas::finished_bad))]
    pub fn finish(self) -> Result<Flows, PcapFault>
        ensures value { FinishesBy self result }
    {
        let PcapReader { records, kept, .. } = self;
        let end = records.end();
        drop(records);
        match end {
            Ok(()) => Ok(Flows::of(kept)),
            Err(fault) => {
                drop(kept);
                Err(fault)
            }
        }
    }
}

// Takes the record that has ended, whose frame is whole. If an allocation fails, the last byte of
// the frame is left.
fn settle(records: &mut Records, kept: &mut KeptFlows, port: u16) -> Result<(), PcapFeed>
    requires none { records.old.fault ≡ None }
    requires room { records.old.at < file_limit }
    requires limit { length kept.old.flows.items ≤ 4096 }
    ensures place { PlaceIs records.old records.new result }
    ensures frame { MeetsFrame port records.old.state.begun (frame_read records.old)
        kept.old.flows.items kept.new.flows.items result }
    ensures limit { length kept.new.flows.items ≤ 4096 }
{
    match meet_frame(records, kept, port) {
        Ok(()) => {
            records.end_record();
            Ok(())
        }
        Err(PcapFeed::Fault(fault)) => {
            records.refuse(fault);
            Err(PcapFeed::Fault(fault))
        }
        Err(PcapFeed::NoMemory) => {
            records.leave_last();
            Err(PcapFeed::NoMemory)
        }
    }
}

// Takes the packet of a frame that is whole.
fn meet_frame(records: &Records, kept: &mut KeptFlows, port: u16) -> Result<(), PcapFeed>
    requires none { records.now.fault ≡ None }
    requires limit { length kept.old.flows.items ≤ 4096 }
    ensures frame { MeetsFrame port records.now.state.begun (frame_read records.now)
        kept.old.flows.items kept.new.flows.items result }
    ensures limit { length kept.new.flows.items ≤ 4096 }
{
    let at = records.begun();
    let frame = records.frame();
    match judge(port, at, frame) {
        Judged::Passed => Ok(()),
        Judged::Refused(fault) => Err(PcapFeed::Fault(fault)),
        Judged::Taken(segment) => {
            let end = segment.begin + segment.size;
            kept.meet(at, &segment, &frame[segment.begin..end])
        }
    }
}
