//! The text of the next command in what is left of an output.
ghost use Rattle.std.specs.Prelude.{◌≡◌, drop, IfOk, IfSome};
ghost use Rattle.zy_confirm.specs.NextText.{IsNextText};

use crate::beginning::begins_answer;
use mc_allows::Said;
use mc_answered::answers_with;
use mc_parse::Command;
use std::alloc::Global;
use zy_base::NoMemory;

/// Returns the length of the answer with which the output goes on at this offset, if it is the answer
/// to this command when this was said to its calls, or all that is left if that is a beginning of this
/// answer. At the end of the output nothing is left for any command.
pub fn text_length(
    alloc: Global,
    command: &Command,
    saids: &[Said],
    output: &[u8],
    at: usize,
) -> Result<Option<usize>, NoMemory>
    ensures value { IfOk result (λ found. IfSome found
        (IsNextText command.now saids.now (drop at output.now))) }
{
    let rest = behind(output, at);
    if rest.is_empty() {
        return Ok(Some(0));
    }
    if let Some(length) = answers_with(alloc, command, saids, rest)? {
        return Ok(Some(length));
    }
    if begins_answer(alloc, command, saids, rest)? {
        Ok(Some(rest.len()))
    } else {
        Ok(None)
    }
}

// Returns the bytes from an offset on.
fn behind(output: &[u8], at: usize) -> &[u8]
    ensures value { result.now ≡ drop at output.now }
{
    if at < output.len() {
        &output[at..]
    } else {
        &[]
    }
}
