//! The judgement of a whole field, by its shape.
ghost use Rattle.std.specs.Prelude.{◌≡◌, ◌+◌, ◌-◌, ◌≤◌, ◌++◌, ◌∷◌, ℕ, List, [], length, take, is_ok, Err};
ghost use Rattle.zy_read.specs.FieldReading.{IsPart, IsQuiet, Judges};
ghost use Rattle.zy_read.specs.Runs.{RunsOver};
ghost use Rattle.zy_read.specs.declared.not_taken.NotTaken.TheVariants.{NoMemory};
ghost use Rattle.zy_read.specs.declared.shape.Shape.TheVariants as Kinds;

use crate::field::Field;
use crate::field_format::FieldFormat;
use crate::not_taken::NotTaken;
use crate::shape::Shape;
use std::alloc::Global;

// Judges the next field if the bytes begin with all of it. Returns its size, or 0 if it is wrong or
// an allocation fails. A run is put into `payload`.
#[tactic(auto, using(crate::proofs::TakenLemmas::quiet_then, crate::proofs::TakenLemmas::judged_kept, crate::proofs::OverLemmas::over_none, crate::proofs::OverLemmas::over_then))]
pub(super) fn judge_whole<S: FieldFormat>(
    alloc: Global,
    state: &mut S,
    payload: &mut Vec<u8>,
    at: u64,
    bytes: &[u8],
) -> usize
    requires empty { payload.old.items ≡ [] }
    requires fits { S.Fits state.old at }
    requires quiet { (at : ℕ) (field : List ℕ) → IsQuiet (S.fields.judge state.old at field) }
    ensures within { result ≤ length bytes.now }
    ensures runs { RunsOver S.fields state.old at (take result bytes.now) state.new [] }
    ensures fits { S.Fits state.new (at + result) }
{
    match state.shape() {
        Shape::Byte => match bytes.first() {
            Some(first) if is_taken(state.judge_byte(alloc, at, *first)) => 1,
            _ => 0,
        },
        Shape::Four => match bytes.first_chunk::<4>() {
            Some(first) if is_taken(state.judge_four(alloc, at, *first)) => 4,
            _ => 0,
        },
        Shape::Eight => match bytes.first_chunk::<8>() {
            Some(first) if is_taken(state.judge_eight(alloc, at, *first)) => 8,
            _ => 0,
        },
        Shape::Run(others) => judge_whole_run(alloc, state, payload, others, at, bytes),
    }
}

// Judges a run with which the bytes begin, as `judge_whole`. It needs memory.
#[tactic(auto, using(crate::proofs::TakenLemmas::quiet_then, crate::proofs::TakenLemmas::judged_kept, crate::proofs::OverLemmas::over_none, crate::proofs::OverLemmas::over_then))]
fn judge_whole_run<S: FieldFormat>(
    alloc: Global,
    state: &mut S,
    payload: &mut Vec<u8>,
    others: u64,
    at: u64,
    bytes: &[u8],
) -> usize
    requires shape { S.shape_of state.old ≡ Kinds.Run others }
    requires empty { payload.old.items ≡ [] }
    requires fits { S.Fits state.old at }
    requires quiet { (at : ℕ) (field : List ℕ) → IsQuiet (S.fields.judge state.old at field) }
    ensures within { result ≤ length bytes.now }
    ensures runs { RunsOver S.fields state.old at (take result bytes.now) state.new [] }
    ensures fits { S.Fits state.new (at + result) }
{
    if bytes.len() as u64 <= others {
        return 0;
    }
    let size = others as usize + 1;
    if payload.extend_from_slice(&bytes[..size]).is_err() {
        return 0;
    }
    if is_taken(state.judge_run(alloc, at, payload)) {
        size
    } else {
        0
    }
}

// Checks whether a field was taken.
fn is_taken<G: Drop, F: Drop>(judgement: Result<Option<G>, NotTaken<F>>) -> bool
    ensures value { result ≡ is_ok judgement }
{
    judgement.is_ok()
}

// Judges the field that a byte ends, of which these bytes were read before. A run needs memory for
// the byte; at `NoMemory` nothing changes.
pub(super) fn judge_last<S: FieldFormat>(
    alloc: Global,
    state: &mut S,
    field: &Field,
    payload: &mut Vec<u8>,
    at: u64,
    byte: u8,
) -> Result<Option<S::Gives>, NotTaken<S::Fault>>
    requires part { IsPart (S.shape_of state.old) field.now payload.old.items }
    requires last { length (field.now ++ payload.old.items) + 1 ≡ S.fields.width state.old }
    requires place { length (field.now ++ payload.old.items) ≤ at }
    requires fits { S.Fits state.old (at - length (field.now ++ payload.old.items)) }
    ensures value { Judges S.Fits S.Wants
        (S.fields.judge state.old (at - length (field.now ++ payload.old.items))
        ((field.now ++ payload.old.items) ++ byte ∷ []))
        (at + 1) state.old state.new result }
    ensures kept { result ≡ Err NoMemory → payload.new.items ≡ payload.old.items }
{
    match state.shape() {
        Shape::Byte => state.judge_byte(alloc, at, byte),
        Shape::Four => state.judge_four(alloc, at - 3, field.four(byte)),
        Shape::Eight => state.judge_eight(alloc, at - 7, field.eight(byte)),
        Shape::Run(others) => judge_last_of_run(alloc, state, payload, at - others, byte),
    }
}

// Judges the run that a byte ends, and that begins at this place, as `judge_last`.
fn judge_last_of_run<S: FieldFormat>(
    alloc: Global,
    state: &mut S,
    payload: &mut Vec<u8>,
    at: u64,
    byte: u8,
) -> Result<Option<S::Gives>, NotTaken<S::Fault>>
    requires shape { S.shape_of state.old ≡ Kinds.Run (length payload.old.items) }
    requires fits { S.Fits state.old at }
    ensures value { Judges S.Fits S.Wants
        (S.fields.judge state.old at (payload.old.items ++ byte ∷ []))
        (at + length payload.old.items + 1) state.old state.new result }
    ensures kept { result ≡ Err NoMemory → payload.new.items ≡ payload.old.items }
{
    if payload.push(byte).is_err() {
        return Err(NotTaken::NoMemory);
    }
    let judgement = state.judge_run(alloc, at, payload);
    if let Err(NotTaken::NoMemory) = &judgement {
        let _ = payload.pop();
    }
    judgement
}
