//! Whether bytes begin with the answer to what was said.
ghost use Rattle.std.specs.Prelude.{IfOk};
ghost use Rattle.mc_answers.specs.Answer.{IsAnswer};
ghost use Rattle.mc_answered.specs.With.{IsFound};

use crate::counts::counts_length;
use crate::fixed::fixed_answer;
use crate::listing::{are_got, listing_length};
use crate::marked::meta_length;
use crate::one::{one_answer, reply_kind};
use mc_allows::Said;
use mc_parse::{Command, Meta};
use std::alloc::Global;
use zy_base::NoMemory;

/// Returns the length of the answer with which the bytes begin, if it is the answer to this command when this was said
/// to its calls. `None` for some rare answers too.
pub fn answers_with(
    alloc: Global,
    command: &Command,
    saids: &[Said],
    bytes: &[u8],
) -> Result<Option<usize>, NoMemory>
    ensures value { IfOk result (IsFound (IsAnswer command.now saids.now) bytes.now) }
{
    match command {
        Command::Get { keys, unique } => {
            if are_got(keys.items(), saids) {
                listing_length(alloc, keys.items(), *unique, saids, bytes)
            } else {
                Ok(None)
            }
        }
        Command::Meta { meta: Meta::Noop } => Ok(line_answer(command, saids, bytes)),
        Command::Meta { meta } => meta_length(alloc, command, meta, saids, bytes),
        _ => Ok(line_answer(command, saids, bytes)),
    }
}

// Returns the length of the answer of a command that is no retrieval.
fn line_answer(command: &Command, saids: &[Said], bytes: &[u8]) -> Option<usize>
    ensures value { IsFound (IsAnswer command.now saids.now) bytes.now result }
{
    match reply_kind(command) {
        Some(kind) => one_answer(kind, command.is_quiet(), saids, bytes),
        None => fixed_answer(command, saids, bytes),
    }
}
