//! Answers that do not depend on what was said.
ghost use Rattle.std.specs.Prelude.{◌≡◌, true, false, Some};
ghost use Rattle.mc_parse.specs.Saying.{the_version, is_done, does_noop};
ghost use Rattle.mc_calls.specs.declared.call_reply.CallReply.TheVariants.{Flushed};
ghost use Rattle.mc_allows.specs.declared.said.Said.TheVariants.{Replied};
ghost use Rattle.mc_answers.specs.Answer.{IsAnswer, IsFixedLine};
ghost use Rattle.mc_answers.specs.Kinds.{IsErrorLine};
ghost use Rattle.mc_answers.specs.Said.{AreFlushed};
ghost use Rattle.mc_answered.specs.With.{IsFound};

use crate::counts::counts_length;
use crate::line::{is_error_line, is_line_with, line_length};
use mc_allows::Said;
use mc_calls::CallReply;
use mc_parse::{Command, Meta};

/// Returns the length of an answer that does not depend on what was said, if the bytes begin with it.
pub(crate) fn fixed_answer(command: &Command, saids: &[Said], bytes: &[u8]) -> Option<usize>
    ensures value { IsFound (IsAnswer command.now saids.now) bytes.now result }
{
    match command {
        Command::Flush { quiet } if are_flushed(saids) => unless(*quiet, done_length(bytes)),
        Command::Verbosity { quiet } if saids.is_empty() => unless(*quiet, done_length(bytes)),
        Command::Fault { quiet, .. } if saids.is_empty() => unless(*quiet, fault_length(bytes)),
        Command::Version if saids.is_empty() => version_length(bytes),
        Command::Stats if saids.is_empty() => counts_length(bytes),
        Command::Meta { meta: Meta::Noop } if saids.is_empty() => noop_length(bytes),
        _ => None,
    }
}

// Returns what was found, or 0 if no answer is requested.
fn unless(quiet: bool, found: Option<usize>) -> Option<usize>
    ensures quiet { quiet ≡ true → result ≡ Some 0 }
    ensures loud { quiet ≡ false → result ≡ found }
{
    if quiet { Some(0) } else { found }
}

// Checks whether this is what is said to a flush of all shards.
fn are_flushed(saids: &[Said]) -> bool
    ensures value { result ≡ true → AreFlushed saids.now }
{
    for i in 0..saids.len() {
        if !is_flushed(&saids[i]) {
            return false;
        }
    }
    true
}

// Checks whether a flush was replied to.
fn is_flushed(said: &Said) -> bool
    ensures value { result ≡ true → said.now ≡ Replied Flushed }
{
    matches!(
        said,
        Said::Replied {
            reply: CallReply::Flushed
        }
    )
}

// Returns the length of the line that says that a command was executed.
fn done_length(bytes: &[u8]) -> Option<usize>
    ensures value { IsFound (IsFixedLine is_done) bytes.now result }
{
    if bytes.starts_with(b"OK\r\n") {
        Some(4)
    } else {
        None
    }
}

// Returns the length of the answer to `mn`.
fn noop_length(bytes: &[u8]) -> Option<usize>
    ensures value { IsFound (IsFixedLine does_noop) bytes.now result }
{
    if bytes.starts_with(b"MN\r\n") {
        Some(4)
    } else {
        None
    }
}

// Returns the length of a line in which a server names a fault.
fn fault_length(bytes: &[u8]) -> Option<usize>
    ensures value { IsFound IsErrorLine bytes.now result }
{
    let Some(length) = line_length(bytes) else {
        return None;
    };
    if is_error_line(&bytes[..length]) {
        Some(length)
    } else {
        None
    }
}

// Returns the length of the line of a version.
fn version_length(bytes: &[u8]) -> Option<usize>
    ensures value { IsFound (IsFixedLine the_version) bytes.now result }
{
    let Some(length) = line_length(bytes) else {
        return None;
    };
    if is_line_with(&bytes[..length], b"VERSION ") {
        Some(length)
    } else {
        None
    }
}
