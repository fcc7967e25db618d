//! What the bytes of a command's answer show of its calls.
ghost use Rattle.std.specs.Prelude.{◌≡◌, ◌⊎◌, [], List, length, nat_lt, IfOk};
ghost use Rattle.mc_allows.specs.Allows.{may_fail_quietly, sure_limit};
ghost use Rattle.mc_allows.specs.declared.said.Said.{Said};
ghost use Rattle.mc_allows.specs.declared.shown.Shown.TheVariants.{Nothing};
ghost use Rattle.mc_answers.specs.Answer.{IsAnswer};
ghost use Rattle.mc_shown.specs.Parts.{AreSuited};
ghost use Rattle.zy_outputs.specs.Showing.{MaySuit};

use mc_allows::Shown;
use mc_calls::Call;
use mc_parse::Command;
use mc_shown::{Part, shown_by};
use std::alloc::Global;
use std::mem;
use zy_base::{Blob, NoMemory};

// The most bytes of a value that a server surely stores.
const SURE_LIMIT: usize = 1_000_000;

/// Returns what the bytes of an answer show of the calls of its command; without bytes they show nothing.
pub(crate) fn parts_of(alloc: Global, command: &Command, text: &[u8]) -> Result<Vec<Part>, NoMemory>
    ensures suits { IfOk result (λ parts. (saids : List Said)
        → (text.now ≡ []) ⊎ IsAnswer command.now saids text.now → AreSuited parts.items saids) }
{
    if text.is_empty() {
        return Ok(Vec::new(alloc));
    }
    shown_by(alloc, command, text)
}

/// Takes what is shown of the call at an offset out of the list. If the list does not have it, a call of a command
/// that asks for no answer did not fail, if it cannot have failed.
#[tactic(auto, using(crate::proofs::ShowingLemmas::suits_no_failure))]
pub(crate) fn take_part(
    parts: &mut Vec<Part>,
    at: usize,
    quiet: bool,
    forget: bool,
    call: &Call,
) -> Part
    ensures kept { (saids : List Said) → AreSuited parts.old.items saids → AreSuited parts.new.items saids }
    ensures suits { MaySuit parts.old.items at quiet forget call.now result.shown }
{
    if at < parts.len() {
        return mem::replace(&mut parts[at], nothing());
    }
    if quiet && !may_fail_quietly(forget, call) {
        return Part {
            shown: Shown::NoFailure,
            unique: None,
        };
    }
    nothing()
}

// Shows nothing.
fn nothing() -> Part
    ensures value { result.shown ≡ Nothing }
{
    Part {
        shown: Shown::Nothing,
        unique: None,
    }
}

// Checks whether a call that gets no answer may fail.
fn may_fail_quietly(forget: bool, call: &Call) -> bool
    ensures value { result ≡ may_fail_quietly forget call.now }
{
    match call {
        Call::Get { .. } | Call::Delete { .. } | Call::Flush | Call::Tally => false,
        Call::Set { value, .. } | Call::Add { value, .. } => forget || is_long(value),
        Call::Replace { value, .. } | Call::Cas { value, .. } => forget || is_long(value),
        Call::Append { value, .. } | Call::Prepend { value, .. } => forget || is_long(value),
        Call::Incr { .. } | Call::Decr { .. } => forget,
    }
}

// Checks whether a value has more bytes than a server surely stores.
fn is_long(value: &Blob) -> bool
    ensures value { result ≡ nat_lt sure_limit (length value.now) }
{
    value.bytes().len() > SURE_LIMIT
}
