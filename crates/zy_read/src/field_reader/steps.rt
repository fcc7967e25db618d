//! The step of the reader of a format of fields at each byte, by the shape of the field.
ghost use Rattle.std.specs.Prelude.{◌≡◌, ◌⊎◌, ◌+◌, ◌-◌, ◌<◌, ◌≤◌, ◌++◌, ◌∷◌, [], List, length, None, Some, true, false};
ghost use Rattle.zy_read.specs.Fields.{Place, is_full, field_step, grown_by, format_of, refused};
ghost use Rattle.zy_read.specs.FieldReading.{MayNeed, TakesField};
ghost use Rattle.zy_read.specs.Standing.{Follows, Feeds};
ghost use Rattle.zy_read.specs.declared.shape.Shape.TheVariants as Kinds;
ghost use Rattle.zy_read.specs.FieldsLasting.{lasting};

use super::FieldReader;
use super::judging::judge_last;
use crate::field_format::FieldFormat;
use crate::not_taken::NotTaken;
use crate::reads::Reads;
use crate::shape::Shape;

impl<S: FieldFormat> Reads for FieldReader<S> {
    type Gives = S::Gives;

    type Fault = S::Fault;

    ghost Verdict = { S.Verdict };

    ghost format = { format_of S.fields S.good S.bad };

    ghost wants = { MayNeed S.fields S.Wants };

    fn step(&mut self, byte: u8) -> Result<Option<S::Gives>, NotTaken<S::Fault>> {
        if let Some(fault) = self.fault {
            return Err(NotTaken::Fault(fault));
        }
        if self.is_full() {
            let fault = self.state.too_long();
            self.field.clear();
            self.payload.clear();
            self.fault = Some(fault);
            return Err(NotTaken::Fault(fault));
        }
        self.take_byte(byte)
    }

    // Takes whole fields, then those that the format takes at once, and then bytes of a run, but not
    // its last one.
    fn take_run(&mut self, bytes: &[u8], at: usize) -> usize {
        let fields = self.take_fields(bytes, at);
        let run = fields + self.take_front(bytes, at + fields);
        run + self.take_part(bytes, at + run)
    }

    ghost lasting = { lasting S.fields S.good S.bad };
}

impl<S: FieldFormat> FieldReader<S> {
    // Takes a byte of a field.
    fn take_byte(&mut self, byte: u8) -> Result<Option<S::Gives>, NotTaken<S::Fault>>
        requires open { self.old.fault ≡ None }
        requires room { is_full S.fields self.old ≡ false }
        ensures value { TakesField S.fields S.good S.bad S.Wants
            (field_step S.fields self.old byte) self.old self.new byte result }
    {
        match self.state.shape() {
            Shape::Four if self.field.len() < 3 => self.keep(byte),
            Shape::Eight if self.field.len() < 7 => self.keep(byte),
            Shape::Run(others) if (self.payload.len() as u64) < others => {
                self.keep_in_run(others, byte)
            }
            _ => self.end_field(byte),
        }
    }

    // Keeps a byte of a number that is not its last one.
    fn keep(&mut self, byte: u8) -> Result<Option<S::Gives>, NotTaken<S::Fault>>
        requires number { (S.shape_of self.old.state ≡ Kinds.Four)
            ⊎ (S.shape_of self.old.state ≡ Kinds.Eight) }
        requires part { length self.old.seen + 1 < S.fields.width self.old.state }
        requires open { self.old.fault ≡ None }
        requires room { is_full S.fields self.old ≡ false }
        ensures value { TakesField S.fields S.good S.bad S.Wants
            (field_step S.fields self.old byte) self.old self.new byte result }
    {
        self.field.push(byte);
        self.at += 1;
        Ok(None)
    }

    // Keeps a byte of a run that is not its last one. It needs memory.
    fn keep_in_run(&mut self, others: u64, byte: u8) -> Result<Option<S::Gives>, NotTaken<S::Fault>>
        requires run { S.shape_of self.old.state ≡ Kinds.Run others }
        requires part { length self.old.seen < others }
        requires open { self.old.fault ≡ None }
        requires room { is_full S.fields self.old ≡ false }
        ensures value { TakesField S.fields S.good S.bad S.Wants
            (field_step S.fields self.old byte) self.old self.new byte result }
    {
        if self.append(others, &[byte]) {
            Ok(None)
        } else {
            Err(NotTaken::NoMemory)
        }
    }

    // Judges the field that a byte ends, and goes on after it, or keeps its fault.
    fn end_field(&mut self, byte: u8) -> Result<Option<S::Gives>, NotTaken<S::Fault>>
        requires open { self.old.fault ≡ None }
        requires room { is_full S.fields self.old ≡ false }
        requires last { length self.old.seen + 1 ≡ S.fields.width self.old.state }
        ensures value { TakesField S.fields S.good S.bad S.Wants
            (field_step S.fields self.old byte) self.old self.new byte result }
    {
        match judge_last(
            self.alloc,
            &mut self.state,
            &self.field,
            &mut self.payload,
            self.at,
            byte,
        ) {
            Ok(gave) => {
                self.field.clear();
                self.payload.clear();
                self.at += 1;
                Ok(gave)
            }
            Err(NotTaken::Fault(fault)) => {
                self.field.clear();
                self.payload.clear();
                self.fault = Some(fault);
                Err(NotTaken::Fault(fault))
            }
            Err(NotTaken::NoMemory) => Err(NotTaken::NoMemory),
        }
    }
}
