//! Whole fields of which a piece has all bytes, and bytes of a run, taken at once.
ghost use Rattle.std.specs.Prelude.{◌≡◌, ◌+◌, ◌-◌, ◌<◌, ◌≤◌, ◌++◌, ℕ, List, [], length, take, drop, None, true, false};
ghost use Rattle.zy_read.specs.Fields.{grown_by, format_of};
ghost use Rattle.zy_read.specs.FieldReading.{IsQuiet};
ghost use Rattle.zy_read.specs.Standing.{Feeds};
ghost use Rattle.zy_read.specs.declared.shape.Shape.TheVariants as Kinds;

use super::FieldReader;
use super::judging::judge_whole;
use crate::field_format::FieldFormat;
use crate::shape::Shape;

impl<S: FieldFormat> FieldReader<S> {
    // Takes whole fields that the format takes at once, from some place on, but not the last byte of
    // the piece. Returns the number of their bytes.
    #[tactic(auto, using(crate::proofs::Feeding::fed_none))]
    pub(super) fn take_front(&mut self, bytes: &[u8], at: usize) -> usize
        requires place { at < length bytes.now }
        ensures within { at + result < length bytes.now }
        ensures fed { Feeds (format_of S.fields S.good S.bad) self.old self.new
            (take result (drop at bytes.now)) [] }
    {
        if self.fault.is_some() || !self.is_between() {
            return 0;
        }
        let room = self.state.limit() - self.at;
        let most = room.min((bytes.len() - at - 1) as u64) as usize;
        let run = self
            .state
            .judge_front(self.alloc, self.at, &bytes[at..at + most]);
        self.at += run as u64;
        run
    }

    // Takes whole fields one after another, from some place on, but not the last byte of the piece.
    // Returns the number of their bytes.
    #[tactic(auto, using(crate::proofs::Feeding::fed_none))]
    pub(super) fn take_fields(&mut self, bytes: &[u8], at: usize) -> usize
        requires place { at < length bytes.now }
        ensures within { at + result < length bytes.now }
        ensures fed { Feeds (format_of S.fields S.good S.bad) self.old self.new
            (take result (drop at bytes.now)) [] }
    {
        let mut run = 0;
        loop {
            let size = self.take_field(&bytes[at + run..]);
            if size == 0 {
                return run;
            }
            run += size;
        }
    }

    // Takes the next field if the bytes begin with all of it and do not end there, and it gives no
    // record and is not wrong. Returns its size; 0 if it was not taken, also because an allocation
    // failed.
    #[tactic(auto, using(crate::proofs::Feeding::fed_none))]
    fn take_field(&mut self, bytes: &[u8]) -> usize
        requires some { 0 < length bytes.now }
        ensures within { result < length bytes.now }
        ensures fed { Feeds (format_of S.fields S.good S.bad) self.old self.new
            (take result bytes.now) [] }
    {
        if self.fault.is_some() || !self.is_between() || !self.state.is_quiet() {
            return 0;
        }
        let room = self.state.limit() - self.at;
        let most = room.min((bytes.len() - 1) as u64) as usize;
        let bytes = &bytes[..most];
        let size = judge_whole(
            self.alloc,
            &mut self.state,
            &mut self.payload,
            self.at,
            bytes,
        );
        self.payload.clear();
        self.at += size as u64;
        size
    }

    // Checks whether no byte of the next field was read.
    fn is_between(&self) -> bool
        ensures value { result ≡ true → self.now.seen ≡ [] }
    {
        self.field.len() == 0 && self.payload.len() == 0
    }

    // Takes bytes of a run, from some place on, but not its last one. Takes none if an allocation
    // fails.
    #[tactic(auto, using(crate::proofs::FieldLemmas::run_fed, crate::proofs::Feeding::fed_none))]
    pub(super) fn take_part(&mut self, bytes: &[u8], at: usize) -> usize
        requires place { at < length bytes.now }
        ensures within { at + result < length bytes.now }
        ensures fed { Feeds (format_of S.fields S.good S.bad) self.old self.new
            (take result (drop at bytes.now)) [] }
    {
        if self.fault.is_some() {
            return 0;
        }
        let limit = self.state.limit();
        match self.state.shape() {
            Shape::Run(others) if self.at < limit => {
                let left = others - self.payload.len() as u64;
                let room = limit - self.at;
                let run = left.min(room).min((bytes.len() - at - 1) as u64) as usize;
                if self.append(others, &bytes[at..at + run]) {
                    run
                } else {
                    0
                }
            }
            _ => 0,
        }
    }

    // Takes bytes of a run, but not its last one. Returns false if an allocation failed.
    pub(super) fn append(&mut self, others: u64, bytes: &[u8]) -> bool
        requires shape { S.shape_of self.old.state ≡ Kinds.Run others }
        requires fits { length self.old.seen + length bytes.now ≤ others }
        requires room { self.old.at + length bytes.now ≤ S.fields.limit }
        ensures ok { result ≡ true → self.new ≡ grown_by self.old bytes.now }
        ensures kept { result ≡ false → self.new ≡ self.old }
    {
        if self.payload.extend_from_slice(bytes).is_err() {
            return false;
        }
        self.at += bytes.len() as u64;
        true
    }
}
