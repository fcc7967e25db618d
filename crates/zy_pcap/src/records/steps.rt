//! The step of the reader of records at each byte, by what is expected.
ghost use Rattle.std.specs.Prelude.{◌≡◌, ◌+◌, ◌<◌, ◌≤◌, ◌∷◌, ◌++◌, [], length, None, false, Ok, Err};
ghost use Rattle.zy_read.specs.declared.not_taken.NotTaken.TheVariants.{Fault};
ghost use Rattle.zy_read.specs.Fields.{at_state, grown_by, moved, judged_at, field_step, step};
ghost use Rattle.zy_pcap.specs.declared.due.Due.TheVariants as Dues;
ghost use Rattle.zy_pcap.specs.Steps.{file_limit, due_width, frames, ordered_number, original_does};
ghost use Rattle.zy_pcap.specs.Moves.{IsWord, IsPartOfField, broken, TakesMove};

use super::{FILE_LIMIT, Records};
use crate::due::Due;
use crate::pcap_fault::{PcapFault, PcapFeed};
use crate::pcap_state::PcapState;

impl Records {
    // Takes the next byte; `true` at the last byte of a record, whose frame is whole then. The
    // caller then ends the record, keeps its fault, or leaves its last byte unread.
    #[tactic(auto, using(crate::proofs::DueLemmas::full_step))]
    pub(crate) fn take(&mut self, byte: u8) -> Result<bool, PcapFeed>
        requires part { IsPartOfField self.old }
        ensures value { TakesMove (step frames self.old byte) self.old self.new result }
    {
        if let Some(fault) = self.fault {
            return Err(PcapFeed::Fault(fault));
        }
        if self.at >= FILE_LIMIT {
            return self.fail(PcapFault::PcapTooLong);
        }
        match self.state.due {
            Due::Frame { others } => Ok(self.take_frame(others, byte)),
            _ => self.take_word(byte),
        }
    }

    // Keeps the fault of a byte, and answers it.
    fn fail(&mut self, fault: PcapFault) -> Result<bool, PcapFeed>
        ensures value { result ≡ Err (Fault fault) }
        ensures state { self.new ≡ broken self.old fault }
    {
        self.refuse(fault);
        Err(PcapFeed::Fault(fault))
    }

    // Takes a byte of a frame.
    #[tactic(auto, using(crate::proofs::DueLemmas::take_front))]
    fn take_frame(&mut self, others: u32, byte: u8) -> bool
        requires due { self.old.state.due ≡ Dues.Frame others }
        requires part { length self.old.seen ≤ others }
        requires none { self.old.fault ≡ None }
        requires room { self.old.at < file_limit }
        ensures value { TakesMove (field_step frames self.old byte) self.old self.new (Ok result) }
    {
        self.frame.push_reserved(byte);
        if self.frame.len() <= others as usize {
            self.at += 1;
            return false;
        }
        true
    }

    // Takes a byte of a field that is no frame.
    fn take_word(&mut self, byte: u8) -> Result<bool, PcapFeed>
        requires word { IsWord self.old.state.due }
        requires none { self.old.fault ≡ None }
        requires room { self.old.at < file_limit }
        ensures value { TakesMove (field_step frames self.old byte) self.old self.new result }
    {
        if self.field.len() + 1 < self.state.due.width() {
            self.keep(byte);
            return Ok(false);
        }
        self.end_word(byte)
    }

    // Keeps a byte that is not the last one of its field.
    #[tactic(auto, using(crate::proofs::DueLemmas::kept_words))]
    fn keep(&mut self, byte: u8)
        requires word { IsWord self.old.state.due }
        requires short { length self.old.seen + 1 < due_width self.old.state.due }
        requires none { self.old.fault ≡ None }
        requires room { self.old.at < file_limit }
        ensures value { self.new ≡ grown_by self.old (byte ∷ []) }
    {
        self.field.push(byte);
        self.at += 1;
    }

    // Takes the last byte of a field that is no frame.
    fn end_word(&mut self, byte: u8) -> Result<bool, PcapFeed>
        requires word { IsWord self.old.state.due }
        requires last { length self.old.seen + 1 ≡ due_width self.old.state.due }
        requires none { self.old.fault ≡ None }
        requires room { self.old.at < file_limit }
        ensures value { TakesMove (moved self.old (judged_at frames self.old byte))
            self.old self.new result }
    {
        let state = self.state;
        match state.due {
            Due::Settings => self.go_on(state.to(Due::MostCaptured)),
            Due::MostCaptured => self.go_on(state.to(Due::LinkType)),
            Due::Begin => self.go_on(PcapState {
                due: Due::Time,
                begun: self.at,
                ..state
            }),
            Due::Time => self.go_on(state.to(Due::Captured)),
            Due::Original { size } => return self.end_original(size),
            Due::Magic | Due::Version | Due::LinkType | Due::Captured => {
                match state.after_number(self.number(byte)) {
                    Ok(next) => self.go_on(next),
                    Err(fault) => return self.fail(fault),
                }
            }
            Due::Frame { .. } => unreachable!(),
        }
        Ok(false)
    }

    // Returns the number of four bytes, of which this one is the last.
    #[tactic(auto, using(crate::proofs::DueLemmas::word_seen))]
    fn number(&self, byte: u8) -> u32
        requires word { IsWord self.now.state.due }
        requires last { length self.now.seen ≡ 3 }
        ensures value { result ≡ ordered_number self.now.state.is_big (self.now.seen ++ byte ∷ []) }
    {
        let bytes = self.field.four(byte);
        if self.state.is_big {
            u32::from_be_bytes(bytes)
        } else {
            u32::from_le_bytes(bytes)
        }
    }

    // Goes on after the last byte of a field, to this state.
    #[tactic(auto, using(crate::proofs::DueLemmas::kept_words))]
    pub(super) fn go_on(&mut self, next: PcapState)
        requires word { IsWord next.due }
        requires none { self.old.fault ≡ None }
        requires room { self.old.at < file_limit }
        ensures value { self.new ≡ at_state next (self.old.at + 1) }
        ensures part { IsPartOfField self.new }
    {
        self.state = next;
        self.field.clear();
        self.frame.clear();
        self.at += 1;
    }

    // Takes the last byte of an original length. It needs memory.
    fn end_original(&mut self, size: u32) -> Result<bool, PcapFeed>
        requires due { self.old.state.due ≡ Dues.Original size }
        requires none { self.old.fault ≡ None }
        requires room { self.old.at < file_limit }
        ensures value { TakesMove (moved self.old (original_does self.old.state size))
            self.old self.new result }
    {
        if size == 0 {
            return Ok(true);
        }
        if self.frame.reserve(size as usize).is_err() {
            return Err(PcapFeed::NoMemory);
        }
        self.state.due = Due::Frame { others: size - 1 };
        self.field.clear();
        self.at += 1;
        Ok(false)
    }
}
