//! The reader of a file's header and of its records.
ghost use Rattle.std.specs.Prelude.{◌≡◌, ◌+◌, ◌<◌, ◌≤◌, None, [], length, take};
ghost use Rattle.zy_read.specs.Fields.{at_state, grown_by};
ghost use Rattle.zy_read.specs.FieldReading.{EndsAt};
ghost use Rattle.zy_pcap.specs.declared.due.Due.TheVariants as Dues;
ghost use Rattle.zy_pcap.specs.Steps.{file_start, file_limit, frames};
ghost use Rattle.zy_pcap.specs.Moves.{frame_read, IsPartOfField, broken, then_record, without_last};
ghost use Rattle.zy_pcap.specs.Step.{FeedsRecords};

mod steps;

use crate::due::Due;
use crate::pcap_fault::PcapFault;
use crate::pcap_state::PcapState;
use std::alloc::Global;
use std::marker::Model;
use zy_read::Field;

const FILE_LIMIT: u64 = 4_294_967_295;

/// Reads a file up to the end of each record.
#[derive(Drop)]
pub(crate) struct Records {
    state: PcapState,
    field: Field,
    frame: Vec<u8>,
    at: u64,
    fault: Option<PcapFault>,
}

impl Model for Records {
    ghost use Rattle.std.specs.Prelude.{◌≤◌, vec_capacity};
    ghost use Rattle.zy_pcap.specs.Steps.{FilePlace, file_limit};
    ghost use Rattle.zy_pcap.specs.Moves.{field_bytes, KeepsFieldBy};

    ghost Value = { FilePlace };

    ghost view = { λ r. record {
      state = r.state;
      seen = field_bytes r.state.due r.field r.frame.items;
      at = r.at;
      fault = r.fault;
    } };

    ghost invariant = { λ r. (r.at ≤ file_limit)
        × KeepsFieldBy r.fault r.state.due r.field r.frame.items (vec_capacity r.frame) };
}

impl Records {
    // Begins before the first byte. Takes no memory.
    pub(crate) fn new(alloc: Global) -> Records
        ensures value { result ≡ at_state file_start 0 }
    {
        Records {
            state: PcapState {
                due: Due::Magic,
                is_big: true,
                begun: 0,
            },
            field: Field::new(),
            frame: Vec::new(alloc),
            at: 0,
            fault: None,
        }
    }

    // Checks whether a file may end here; answers its fault if not.
    pub(crate) fn end(&self) -> Result<(), PcapFault>
        ensures value { EndsAt frames self.now result }
    {
        match (self.fault, self.state.due) {
            (Some(fault), _) => Err(fault),
            (None, Due::Begin) => Ok(()),
            (None, _) => Err(PcapFault::PcapTruncated { at: self.at }),
        }
    }

    // Returns the place of the record that was begun.
    pub(crate) fn begun(&self) -> u64
        ensures value { result ≡ self.now.state.begun }
    {
        self.state.begun
    }

    // Returns the bytes read of the expected frame.
    pub(crate) fn frame(&self) -> &[u8]
        requires none { self.now.fault ≡ None }
        ensures value { result.now ≡ frame_read self.now }
    {
        self.frame.as_slice()
    }

    // Ends the record.
    pub(crate) fn end_record(&mut self)
        requires none { self.old.fault ≡ None }
        requires room { self.old.at < file_limit }
        ensures value { self.new ≡ then_record self.old }
    {
        self.go_on(self.state.to(Due::Begin));
    }

    // Keeps a fault.
    pub(crate) fn refuse(&mut self, fault: PcapFault)
        ensures value { self.new ≡ broken self.old fault }
    {
        self.field.clear();
        self.frame.clear();
        self.fault = Some(fault);
    }

    // Leaves the last byte of a frame that is whole unread.
    pub(crate) fn leave_last(&mut self)
        requires none { self.old.fault ≡ None }
        ensures value { self.new ≡ without_last self.old }
    {
        let rest = self.frame.len().saturating_sub(1);
        self.frame.truncate(rest);
    }

    // Takes some of these bytes, the first ones, which are within a frame, but not the last one.
    // Returns how many, which may be none.
    #[tactic(auto, using(crate::proofs::FrameLemmas::none_fed))]
    pub(crate) fn take_run(&mut self, bytes: &[u8]) -> usize
        requires some { 0 < length bytes.now }
        requires part { IsPartOfField self.old }
        ensures within { result < length bytes.now }
        ensures part { IsPartOfField self.new }
        ensures fed { FeedsRecords self.old self.new (take result bytes.now) }
    {
        match self.state.due {
            Due::Frame { others } if self.fault.is_none() => {
                let left = others as usize - self.frame.len();
                let room = (FILE_LIMIT - self.at) as usize;
                let run = left.min(room).min(bytes.len() - 1);
                self.append(others, &bytes[..run]);
                run
            }
            _ => 0,
        }
    }

    // Takes bytes of a frame, and not its last one.
    fn append(&mut self, others: u32, bytes: &[u8])
        requires due { self.old.state.due ≡ Dues.Frame others }
        requires none { self.old.fault ≡ None }
        requires fits { length self.old.seen + length bytes.now ≤ others }
        requires room { self.old.at + length bytes.now ≤ file_limit }
        ensures value { self.new ≡ grown_by self.old bytes.now }
    {
        // There is room, which was reserved at the end of the original length.
        let _ = self.frame.extend_from_slice(bytes);
        self.at += bytes.len() as u64;
    }
}
