//! Keeping what a reader gives.
ghost use Rattle.std.specs.Prelude.{◌≡◌, ◌++◌, ◌∷◌, [], ℕ, List, Option, Some, Ok, IfOk, OnOk, option_to_list};
ghost use Rattle.zy_read.specs.Bytes.{AreBytes};
ghost use Rattle.zy_read.specs.Standing.{StandsAs, AnswersBy};
ghost use Rattle.zy_input.specs.Keeping.{Keeper, KeepsRecords, KeepsSoFar, IsKeeping, IsAdding, TakesBy};
ghost use Rattle.zy_input.specs.declared.stop.Refusal.{Refusal};

use crate::part::Taken;
use crate::stop::{Refusal, Stop};
use std::alloc::Global;
use zy_base::NoMemory;
use zy_read::{Fed, NotTaken};

/// What is kept of a text: of a capture its streams, of a replies file its outputs.
pub(crate) trait Keep: Drop {
    /// The reader of the text.
    type Reader;

    /// What the reader gives.
    type Item: Drop;

    /// A fault of the text.
    type Fault: Drop;

    // What a whole text is.
    ghost Verdict: { Type 0 };

    // What is kept of which records.
    ghost keeping: { Keeper Self.Reader Self.Item Self.Fault Verdict Self };

    // How a fault is reported.
    ghost refused: { Self.Fault → Refusal };

    // Returns the fault as it is reported.
    fn refusal(fault: Self::Fault) -> Refusal
        ensures value { result ≡ refused fault };

    // Returns the number with which the text begins, once it was read.
    fn number(reader: &Self::Reader) -> Option<u32>
        ensures value { AnswersBy keeping.format reader.now keeping.number_of result };

    // Makes what is kept before any record.
    fn make(alloc: Global, number: u32) -> Result<Self, NoMemory>
        requires known { (bytes : List ℕ) × AreBytes bytes × (Some number ≡ keeping.number_of bytes) }
        ensures value { IfOk result (λ made. keeping.holds made number []) };

    // Adds a record that the reader gave. It gives none before the number.
    fn add(made: &mut Option<Self>, item: Self::Item) -> Result<(), NoMemory>
        requires adding { (place : Self.Reader) × IsAdding keeping place made.old item }
        ensures value { (given : List Self.Item) (number : Option ℕ)
            → KeepsRecords keeping made.old number given
            → OnOk result (KeepsRecords keeping made.new number (given ++ item ∷ [])) };
}

// Keeps what the reader gave for the bytes that it took; `done` says whether the text is whole.
pub(crate) fn keep_taken<K: Keep>(
    alloc: Global,
    reader: &K::Reader,
    made: &mut Option<K>,
    done: bool,
    fed: Fed<K::Item, K::Fault>,
) -> Taken
    requires keeping { (gave : _) → fed.answer ≡ Ok gave
        → IsKeeping K.keeping reader.now made.old gave }
    ensures count { result.count ≡ fed.taken }
    ensures value { TakesBy K.keeping K.refused reader.now made.old made.new done
        fed.answer result.answer }
{
    let Fed {
        taken: count,
        answer,
    } = fed;
    let answer = match answer {
        Ok(gave) => match keep_next(alloc, reader, made, gave) {
            Ok(()) => Ok(done),
            Err(NoMemory) => Err(Stop::NoMemory),
        },
        Err(NotTaken::Fault(fault)) => Err(Stop::Refused(K::refusal(fault))),
        Err(NotTaken::NoMemory) => Err(Stop::NoMemory),
    };
    Taken { count, answer }
}

// Keeps what the reader gave.
fn keep_next<K: Keep>(
    alloc: Global,
    reader: &K::Reader,
    made: &mut Option<K>,
    gave: Option<K::Item>,
) -> Result<(), NoMemory>
    requires keeping { IsKeeping K.keeping reader.now made.old gave }
    ensures value { (given : List K.Item) (bytes : List ℕ)
        → StandsAs K.keeping.format reader.now (given ++ option_to_list gave) bytes
        → KeepsSoFar K.keeping made.old (K.keeping.number_of bytes) given
        → OnOk result (KeepsRecords K.keeping made.new (K.keeping.number_of bytes)
        (given ++ option_to_list gave)) }
{
    match begin(alloc, reader, made) {
        Ok(()) => match gave {
            Some(item) => K::add(made, item),
            None => Ok(()),
        },
        Err(NoMemory) => {
            drop(gave);
            Err(NoMemory)
        }
    }
}

// Makes what is kept, once the number is known, if it was not made yet.
fn begin<K: Keep>(alloc: Global, reader: &K::Reader, made: &mut Option<K>) -> Result<(), NoMemory>
    requires keeping { (gave : Option K.Item) × IsKeeping K.keeping reader.now made.old gave }
    ensures value { (given all : List K.Item) (bytes : List ℕ)
        → StandsAs K.keeping.format reader.now all bytes
        → KeepsSoFar K.keeping made.old (K.keeping.number_of bytes) given
        → OnOk result (KeepsRecords K.keeping made.new (K.keeping.number_of bytes) given) }
{
    if made.is_some() {
        return Ok(());
    }
    match K::number(reader) {
        Some(number) => match K::make(alloc, number) {
            Ok(fresh) => {
                *made = Some(fresh);
                Ok(())
            }
            Err(NoMemory) => Err(NoMemory),
        },
        None => Ok(()),
    }
}
