//! Calls that bytes begin with.
ghost use Rattle.std.specs.Prelude.{◌≡◌, ◌∷◌, IfSome, IfOk};
ghost use Rattle.mc_calls.specs.Code.{call_of, code_of};
ghost use Rattle.zy_journal_reader.specs.Found.{HasCall};

use super::fields::{flags, key, number, value};
use mc_calls::{CallKind, LAST_CALL_CODE};
use std::alloc::Global;
use zy_base::{Blob, NoMemory};

/// The fields of a call; 0 and empty if its kind has none.
#[derive(Clone, Copy)]
pub(crate) struct CallBytes<'a> {
    pub(crate) kind: CallKind,
    key: &'a [u8],
    pub(crate) flags: u32,
    pub(crate) number: u64,
    value: &'a [u8],
}

impl CallBytes<'_> {
    // Copies the key and the value.
    pub(crate) fn contents(&self, alloc: Global) -> Result<(Blob, Blob), NoMemory>
        ensures key { IfOk result (λ both. both.0 ≡ self.now.key.now) }
        ensures value { IfOk result (λ both. both.1 ≡ self.now.value.now) }
    {
        let key = match Blob::copy_of(alloc, self.key) {
            Ok(key) => key,
            Err(refused) => return Err(refused),
        };
        match Blob::copy_of(alloc, self.value) {
            Ok(value) => Ok((key, value)),
            Err(refused) => {
                drop(key);
                Err(refused)
            }
        }
    }
}

// Returns the code and the fields of a call, and the bytes after them.
pub(crate) fn call_fields(bytes: &[u8]) -> Option<(CallBytes<'_>, &[u8])>
    ensures value { IfSome result (λ found. HasCall bytes.now
        (call_of found.0.kind found.0.key.now found.0.flags found.0.number found.0.value.now)
        found.1.now) }
{
    let (kind, after_kind) = kind_of(bytes)?;
    let has = kind.fields();
    let (key, after_key) = key(has.key, after_kind)?;
    let (flags, after_flags) = flags(has.flags, after_key)?;
    let (number, after_number) = number(has.number, after_flags)?;
    let (value, rest) = value(has.value, after_number)?;
    let found = CallBytes {
        kind,
        key,
        flags,
        number,
        value,
    };
    Some((found, rest))
}

// Returns the kind of a call by its code, and the bytes after that.
#[tactic(auto, using(crate::proofs::FoundLemmas::kind_found))]
fn kind_of(bytes: &[u8]) -> Option<(CallKind, &[u8])>
    ensures value { IfSome result (λ found. bytes.now ≡ code_of found.0 ∷ found.1.now) }
{
    let (code, rest) = bytes.split_first()?;
    if *code == 0 || *code > LAST_CALL_CODE {
        return None;
    }
    Some((CallKind::of(*code), rest))
}
