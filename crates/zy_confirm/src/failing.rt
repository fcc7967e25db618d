//! Calls that fail.
ghost use Rattle.std.specs.Prelude.{◌≡◌, ℕ, List, length, Option, IfSome};
ghost use Rattle.mc_allows.specs.Allows as Allows;
ghost use Rattle.mc_calls.specs.Table.{parts_of, value_part};
ghost use Rattle.mc_calls.specs.declared.item.Item.{Item};
ghost use Rattle.zy_confirm.specs.Choosing.{IsAnyChosen};

use crate::outcome::{After, Outcome};
use mc_allows::Said;
use mc_calls::Call;

/// Checks whether a call that gets no answer may fail.
pub fn may_fail_quietly(forget: bool, call: &Call) -> bool
    ensures value { result ≡ Allows.may_fail_quietly forget call.now }
{
    may_fail(call) && (forget || 1_000_000 < value_length(call))
}

// Checks whether a call may fail.
fn may_fail(call: &Call) -> bool
    ensures value { result ≡ Allows.may_fail call.now }
{
    !matches!(
        call,
        Call::Get { .. } | Call::Delete { .. } | Call::Flush | Call::Tally
    )
}

// Returns the length of the call's value, or 0 if it has none.
fn value_length(call: &Call) -> usize
    ensures value { result ≡ length (value_part (parts_of call.now)) }
{
    match call {
        Call::Set { value, .. } | Call::Add { value, .. } | Call::Replace { value, .. } => {
            value.bytes().len()
        }
        Call::Append { value, .. } | Call::Prepend { value, .. } | Call::Cas { value, .. } => {
            value.bytes().len()
        }
        _ => 0,
    }
}

/// Lets a call fail, if it may, so that the item is gone or stays.
pub(crate) fn fail(call: &Call, is_gone: bool) -> Option<Outcome>
    ensures chosen { IfSome result (λ o. (before : Option Item) → IsAnyChosen before call.now o) }
{
    if !may_fail(call) {
        return None;
    }
    Some(Outcome {
        said: Said::Failed,
        after: if is_gone { After::Gone } else { After::Same },
    })
}
