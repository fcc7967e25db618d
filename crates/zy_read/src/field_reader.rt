//! The reader of a format of fields.
ghost use Rattle.std.specs.Prelude.{◌≡◌, ◌+◌, ◌-◌, ◌<◌, ◌≤◌, ◌++◌, ◌∷◌, [], List, length, None, Some, true, false};
ghost use Rattle.zy_read.specs.Fields.{Place, at_state, is_full, field_step, grown_by, format_of, refused};
ghost use Rattle.zy_read.specs.FieldReading.{EndsAt};
ghost use Rattle.zy_read.specs.Standing.{Follows};
ghost use Rattle.zy_read.specs.declared.shape.Shape.TheVariants as Kinds;
ghost use Rattle.zy_read.specs.FieldsLasting.{lasting};

mod judging;
mod runs;
mod steps;

use crate::field::Field;
use crate::field_format::FieldFormat;
use crate::not_taken::NotTaken;
use crate::reads::Reads;
use crate::shape::Shape;
use std::alloc::Global;
use std::marker::Model;

/// Reads a text of a format of fields, byte by byte or in pieces.
#[derive(Drop)]
pub struct FieldReader<S: FieldFormat> {
    alloc: Global,
    state: S,
    field: Field,
    payload: Vec<u8>,
    at: u64,
    fault: Option<S::Fault>,
}

impl<S: FieldFormat> Model for FieldReader<S> {
    ghost use Rattle.std.specs.Prelude.{◌++◌};
    ghost use Rattle.zy_read.specs.Fields.{Place};
    ghost use Rattle.zy_read.specs.FieldReading.{IsReader};

    ghost Value = { Place S S.Fault };

    ghost view = { λ r. record {
      state = r.state;
      seen = r.field ++ r.payload.items;
      at = r.at;
      fault = r.fault;
    } };

    ghost invariant = { λ r. IsReader S.shape_of S.fields.limit S.Fits
        r.state r.field r.payload.items r.at r.fault };
}

impl<S: FieldFormat> FieldReader<S> {
    /// Makes a reader to which no byte was fed, from the state before the first one. Takes no
    /// memory.
    pub fn new(alloc: Global, start: S) -> FieldReader<S>
        requires start { start ≡ S.fields.start }
        ensures value { result ≡ at_state S.fields.start 0 }
    {
        FieldReader {
            alloc,
            state: start,
            field: Field::new(),
            payload: Vec::new(alloc),
            at: 0,
            fault: None,
        }
    }

    /// Returns the state.
    pub fn state(&self) -> &S
        ensures value { result.now ≡ self.now.state }
    {
        &self.state
    }

    /// Returns the state.
    pub fn into_state(self) -> S
        ensures value { result ≡ self.state }
    {
        self.state
    }

    /// Returns the fault that was met.
    pub fn fault(&self) -> Option<S::Fault>
        ensures value { result ≡ self.now.fault }
    {
        self.fault
    }

    /// Checks whether the text may end here; answers its fault if not.
    pub fn end(&self) -> Result<(), S::Fault>
        ensures value { EndsAt S.fields self.now result }
    {
        match self.fault {
            Some(fault) => Err(fault),
            None if self.state.is_end() => Ok(()),
            None => Err(self.state.truncated(self.at)),
        }
    }

    // Checks whether the text has its most bytes, and its end was not read.
    fn is_full(&self) -> bool
        ensures value { result ≡ is_full S.fields self.now }
    {
        !self.state.is_end() && self.at >= self.state.limit()
    }
}
