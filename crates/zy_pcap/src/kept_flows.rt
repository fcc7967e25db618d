//! What is kept of all flows.
ghost use Rattle.std.specs.Prelude.{◌≡◌, ◌+◌, ◌<◌, ◌≤◌, [], length, None, Some, option_map, vec_capacity, OnOk, OnErr};
ghost use Rattle.std.specs.List.{slice_index_or};
ghost use Rattle.zy_pcap.specs.Packet.{packet_with};
ghost use Rattle.zy_pcap.specs.Flow.{slot_of, put_at};
ghost use Rattle.zy_pcap.specs.Kept.{MeetsFlows, MeetsFlow, BeginsFlow, kept_keys, IsNumber};
ghost use Rattle.zy_pcap.specs.Kept.{IsHolder};

use crate::judged::Segment;
use crate::kept_flow::KeptFlow;
use crate::pcap_fault::{PcapFault, PcapFeed};
use crate::slot::Slot;
use std::alloc::Global;
use std::mem;
use zy_base::NoMemory;
use zy_rss::toeplitz;

const GROUP_COUNT: u32 = 128;

const GROUP_LIMIT: u32 = 32;

/// The flow of each connection number that was given to one.
#[derive(Drop)]
pub(crate) struct KeptFlows {
    pub(crate) alloc: Global,
    pub(crate) flows: Vec<Option<KeptFlow>>,
}

impl KeptFlows {
    // Begins without a flow. Takes no memory.
    pub(crate) fn new(alloc: Global) -> KeptFlows
        ensures value { result.flows.items ≡ [] }
    {
        KeptFlows {
            alloc,
            flows: Vec::new(alloc),
        }
    }

    // Takes a packet.
    pub(crate) fn meet(
        &mut self,
        at: u64,
        segment: &Segment,
        payload: &[u8],
    ) -> Result<(), PcapFeed>
        requires few { length payload.now < 65536 }
        requires limit { length self.old.flows.items ≤ 4096 }
        ensures value { MeetsFlows (packet_with segment.now payload.now) at
            self.old.flows.items self.new.flows.items result }
        ensures limit { length self.new.flows.items ≤ 4096 }
    {
        match self.slot(&segment.flow) {
            Slot::Known(number) => self.go_on(number, at, segment, payload),
            Slot::New(number) => self.begin(number, segment, payload),
            Slot::Full => Err(PcapFeed::Fault(PcapFault::FlowCount { at })),
        }
    }

    // Returns the connection number of a flow.
    fn slot(&self, key: &[u8; 12]) -> Slot
        ensures value { result ≡ slot_of (kept_keys self.now.flows.items) key.now }
        ensures within { IsNumber result }
        ensures holder { IsHolder self.now.flows.items key.now result }
    {
        let group = toeplitz(key) % GROUP_COUNT;
        for count in 0..GROUP_LIMIT {
            let number = group + GROUP_COUNT * count;
            match self.key_of(number) {
                None => return Slot::New(number),
                Some(other) => {
                    if *other == *key {
                        return Slot::Known(number);
                    }
                }
            }
        }
        Slot::Full
    }

    // Returns the flow to which a number was given.
    fn key_of(&self, number: u32) -> Option<&[u8; 12]>
        ensures value { option_map (λ key. key.now) result
            ≡ slice_index_or (kept_keys self.now.flows.items) number None }
    {
        match self.flows.get(number as usize) {
            Some(Some(flow)) => Some(&flow.key),
            _ => None,
        }
    }

    // Takes a packet of the flow of a number.
    fn go_on(
        &mut self,
        number: u32,
        at: u64,
        segment: &Segment,
        payload: &[u8],
    ) -> Result<(), PcapFeed>
        requires few { length payload.now < 65536 }
        requires within { number < length self.old.flows.items }
        ensures value { MeetsFlow number (packet_with segment.now payload.now) at
            self.old.flows.items self.new.flows.items result }
        ensures limit { length self.new.flows.items ≡ length self.old.flows.items }
    {
        match &mut self.flows[number as usize] {
            Some(flow) => flow.meet(at, segment, payload),
            None => Ok(()),
        }
    }

    // Gives a number to the flow that a packet begins.
    fn begin(&mut self, number: u32, segment: &Segment, payload: &[u8]) -> Result<(), PcapFeed>
        requires few { length payload.now < 65536 }
        requires limit { length self.old.flows.items ≤ 4096 }
        requires number { number < 4096 }
        ensures value { BeginsFlow number (packet_with segment.now payload.now)
            self.old.flows.items self.new.flows.items result }
        ensures limit { length self.new.flows.items ≤ 4096 }
    {
        match KeptFlow::begun(self.alloc, segment, payload) {
            Ok(flow) => match self.put(number, flow) {
                Ok(()) => Ok(()),
                Err(_) => Err(PcapFeed::NoMemory),
            },
            Err(_) => Err(PcapFeed::NoMemory),
        }
    }

    // Gives a number to a flow.
    fn put(&mut self, number: u32, flow: KeptFlow) -> Result<(), NoMemory>
        requires limit { length self.old.flows.items ≤ 4096 }
        requires number { number < 4096 }
        ensures ok { OnOk result (self.new.flows.items
            ≡ put_at self.old.flows.items number flow) }
        ensures err { OnErr result (self.new.flows.items ≡ self.old.flows.items) }
        ensures limit { length self.new.flows.items ≤ 4096 }
    {
        let number = number as usize;
        if number < self.flows.len() {
            drop(mem::replace(&mut self.flows[number], Some(flow)));
            return Ok(());
        }
        if self.flows.reserve(number + 1 - self.flows.len()).is_err() {
            drop(flow);
            return Err(NoMemory);
        }
        self.put_last(number, flow);
        Ok(())
    }

    // Gives a number that comes after all others to a flow; there is room for it.
    fn put_last(&mut self, number: usize, flow: KeptFlow)
        requires number { number < 4096 }
        requires last { length self.old.flows.items ≤ number }
        requires room { number + 1 ≤ vec_capacity self.old.flows }
        ensures value { self.new.flows.items ≡ put_at self.old.flows.items number flow }
    {
        for _ in 0..number - self.flows.len() {
            self.flows.push_reserved(None);
        }
        self.flows.push_reserved(Some(flow));
    }
}
